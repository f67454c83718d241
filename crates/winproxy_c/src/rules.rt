ghost use Rattle.std.specs.Prelude.{◌≡◌};
ghost use Rattle.byte_answers.specs.Answers.{Tells, Sets, SetsBy};
ghost use Rattle.byte_answers.specs.Rules as spec;
ghost use Rattle.winproxy_c.specs.Results.{Says};

use std::alloc::Global;

/// The serialization of a URL's origin.
#[unsafe(no_mangle)]
pub extern "C" fn winproxy_origin(alloc: Global, url: &[u8], out: &mut [u8], len: &mut usize) -> u32
    ensures { Says result (Tells (spec.origin_text_told url.now) out.old out.new len.new) }
{
    byte_answers::origin_text_of(alloc, url, out, len).number()
}

/// The serialization of the site of a URL's origin, by a list of public suffixes.
#[unsafe(no_mangle)]
pub extern "C" fn winproxy_site(
    alloc: Global,
    url: &[u8],
    suffixes: &[u8],
    out: &mut [u8],
    len: &mut usize,
) -> u32
    ensures { Says result (Tells (spec.site_text_told url.now suffixes.now) out.old out.new len.new) }
{
    byte_answers::site_text_of(alloc, url, suffixes, out, len).number()
}

/// Whether the origins of two URLs are the same.
#[unsafe(no_mangle)]
pub extern "C" fn winproxy_same_origin(alloc: Global, a: &[u8], b: &[u8], same: &mut bool) -> u32
    ensures { Says result (Sets (spec.same_origin_told a.now b.now) same.old same.new) }
{
    byte_answers::tell_same_origin(alloc, a, b, same).number()
}

/// Whether the sites of two URLs' origins are the same, by a list of public suffixes.
#[unsafe(no_mangle)]
pub extern "C" fn winproxy_same_site(
    alloc: Global,
    a: &[u8],
    b: &[u8],
    suffixes: &[u8],
    same: &mut bool,
) -> u32
    ensures { Says result (SetsBy spec.TellsSame (spec.sites_told a.now b.now suffixes.now) same.old same.new) }
{
    byte_answers::tell_same_site(alloc, a, b, suffixes, same).number()
}

/// The sandboxing flags of the attribute `sandbox`.
#[unsafe(no_mangle)]
pub extern "C" fn winproxy_sandbox_flags(attribute: &[u8], flags: &mut u16) -> u32
    ensures { Says result (Sets (spec.flags_told attribute.now) flags.old flags.new) }
{
    byte_answers::tell_sandbox_flags(attribute, flags).number()
}

/// The origins that a message's target text means for a sender.
#[unsafe(no_mangle)]
pub extern "C" fn winproxy_target(
    alloc: Global,
    text: &[u8],
    sender: &[u8],
    out: &mut [u8],
    len: &mut usize,
) -> u32
    ensures { Says result (Tells (spec.target_told text.now sender.now) out.old out.new len.new) }
{
    byte_answers::target_text(alloc, text, sender, out, len).number()
}
