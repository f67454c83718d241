//! The coordinator and the rules for embedders in C: `include/winproxy.h` declares what stands here, with its conditions.
//!
//! | Export | Parameters | Answer | Condition |
//! |---|---|---|---|
//! | `winproxy_version` | | `u32` | |
//! | `winproxy_desk_open` | desk, renderers `u16`, suffixes bytes | result | the desk is closed |
//! | `winproxy_desk_start` | desk, URL bytes, navigable `u32` out | result | the desk is open |
//! | `winproxy_desk_serve` | desk, renderer `u16`, request bytes, reply buffer, length out | result | the desk is open |
//! | `winproxy_desk_lose` | desk, renderer `u16` | result | the desk is open |
//! | `winproxy_desk_renderers` | desk | `u16` | the desk is open |
//! | `winproxy_desk_entries` | desk | `u32` | the desk is open |
//! | `winproxy_desk_told` | desk, renderer `u16` | `u32` | the desk is open |
//! | `winproxy_desk_is_lost` | desk, renderer `u16` | `bool` | the desk is open |
//! | `winproxy_desk_line` | desk, place `u32`, buffer, length out | result | the desk is open |
//! | `winproxy_desk_free` | desk | | the desk is open |
//! | `winproxy_read_request` | bytes, request out, fault out | result | |
//! | `winproxy_request_text` | bytes, part `u8`, buffer, length out | result | |
//! | `winproxy_write_request` | request, URL bytes, text bytes, data bytes, buffer, length out | result | |
//! | `winproxy_read_reply` | bytes, reply out, fault out | result | |
//! | `winproxy_reply_line` | bytes, index `u32`, buffer, length out | result | |
//! | `winproxy_origin` | URL bytes, buffer, length out | result | |
//! | `winproxy_site` | URL bytes, suffixes bytes, buffer, length out | result | |
//! | `winproxy_same_origin` | two URLs, truth out | result | |
//! | `winproxy_same_site` | two URLs, suffixes bytes, truth out | result | |
//! | `winproxy_sandbox_flags` | attribute bytes, flags `u16` out | result | |
//! | `winproxy_target` | target bytes, sender's URL bytes, buffer, length out | result | |
//!
//! A desk is a [`Handle`]: a struct of one pointer, open where it has a coordinator. Bytes and buffers are a pointer and a
//! length, and no pointer is null. A result is the number of an answer.
#![tactic(auto)]

mod desks;
mod frames;
mod rules;
mod version;
