ghost use Rattle.std.specs.Prelude.{◌≡◌, ◌++◌, [], ◌∷◌, IfOk, OnOk, string_bytes};
ghost use Rattle.json.specs.Print.{quoted};
ghost use Rattle.plain_data.specs.DataText.{data_text, list_text, record_text};
ghost use Rattle.plain_data.specs.Commas.{comma_after};

use crate::data::Data;
use crate::text::Text;
use json::Writer;
use std::alloc::{AllocError, Global};

/// The data's text: JSON without spaces (RFC 8259), the members of a record in their order, with `undefined` beside
/// JSON's words. So the members of a record whose keys ascend are written by ascending keys.
pub fn text_of(alloc: Global, value: &Data) -> Result<Text, AllocError>
    ensures { IfOk result (λ text. text ≡ data_text value.now) }
{
    let mut out = String::new(alloc);
    write(alloc, value, &mut out)?;
    Ok(Text::from_string(out))
}

/// A text as JSON writes it (RFC 8259, strings), in quotes: `\"`, `\\` and the control characters are escaped, with
/// `\b`, `\f`, `\n`, `\r` and `\t` where JSON has these and else `\u00` and two digits, and all else stands as it is.
/// `serde_json` writes a text in the same way, but has no value `undefined`: so data is written here, from this.
pub fn quote(alloc: Global, text: &str) -> Result<String, AllocError>
    ensures { IfOk result (λ s. string_bytes s ≡ quoted text.now) }
{
    let mut writer = Writer::new(Vec::new(alloc));
    writer.string(text)?;
    match String::from_utf8(writer.into_inner()) {
        Ok(quoted) => Ok(quoted),
        Err(_) => unreachable!(),
    }
}

#[cycle(write)]
fn write(alloc: Global, value: &Data, out: &mut String) -> Result<(), AllocError>
    ensures { OnOk result (string_bytes out.new ≡ string_bytes out.old ++ data_text value.now) }
{
    match value {
        Data::Undefined => out.push_str("undefined"),
        Data::Null => out.push_str("null"),
        Data::Truth(truth) => out.push_str(if *truth { "true" } else { "false" }),
        Data::Whole(whole) => write!(out, "{}", *whole),
        Data::Text(text) => out.push_str(quote(alloc, text.as_str())?.as_str()),
        Data::List(items) => {
            out.push_str("[")?;
            write_items(alloc, items.as_slice(), out)?;
            out.push_str("]")
        }
        Data::Record(members) => {
            put("{", out)?;
            write_members(alloc, members.as_slice(), out)?;
            put("}", out)
        }
    }
}

#[cycle(write)]
fn write_items(alloc: Global, items: &[Data], out: &mut String) -> Result<(), AllocError>
    ensures { OnOk result (string_bytes out.new ≡ string_bytes out.old ++ list_text items.now) }
{
    for (i, item) in items.iter().enumerate() {
        separate(i, out)?;
        write(alloc, item, out)?;
    }
    Ok(())
}

#[cycle(write)]
fn write_members(
    alloc: Global,
    members: &[(Text, Data)],
    out: &mut String,
) -> Result<(), AllocError>
    ensures { OnOk result (string_bytes out.new ≡ string_bytes out.old ++ record_text members.now) }
{
    for (i, member) in members.iter().enumerate() {
        separate(i, out)?;
        put(quote(alloc, member.0.as_str())?.as_str(), out)?;
        put(":", out)?;
        write(alloc, &member.1, out)?;
    }
    Ok(())
}

// A comma, unless nothing stands before.
fn separate(before: usize, out: &mut String) -> Result<(), AllocError>
    ensures { OnOk result (string_bytes out.new ≡ string_bytes out.old ++ comma_after before) }
{
    if before > 0 {
        out.push_str(",")
    } else {
        Ok(())
    }
}

fn put(piece: &str, out: &mut String) -> Result<(), AllocError>
    ensures { OnOk result (string_bytes out.new ≡ string_bytes out.old ++ piece.now) }
{
    out.push_str(piece)
}
