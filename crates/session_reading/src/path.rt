ghost use Rattle.std.specs.Prelude.{◌≡◌, [], ◌∷◌, ◌++◌, true, false, IfOk, OnOk, string_bytes};
ghost use Rattle.session_reading.specs.PathText.{path_words, segment_words, segments_words};

use plain_data::Text;
use std::alloc::{AllocError, Global};
use std::marker::Model;

/// One step down: to the field of a name, or to an item of a list by its number, from 0.
#[derive(Debug, Drop)]
pub enum Segment {
    Named(Text),
    At(usize),
}

/// The way from the top of a text's JSON tree to a value in it, which contracts see as its segments, the topmost first.
#[derive(Debug, Drop)]
pub struct Path {
    segments: Vec<Segment>,
}

impl Model for Path {
    ghost use Rattle.std.specs.Prelude.{List};
    ghost use Rattle.session_reading.specs.declared.path.Segment.{Segment};

    ghost Value = { List Segment };

    ghost view = { λ p. p.segments.items };
}

impl Path {
    /// The way that stays. It takes no memory.
    pub fn here(alloc: Global) -> Path
        ensures { result ≡ [] }
    {
        Path {
            segments: Vec::new(alloc),
        }
    }

    /// The same way, from one step higher.
    pub fn under(self, segment: Segment) -> Result<Path, AllocError>
        ensures { IfOk result (λ p. p ≡ segment ∷ self) }
    {
        let Path { mut segments } = self;
        segments.insert(0, segment)?;
        Ok(Path { segments })
    }
}

/// The path as it is printed: `pages[0].script[2].url`, and `.` for the whole text. A name stands as it is, with
/// nothing escaped.
pub fn path_text(alloc: Global, path: &Path) -> Result<String, AllocError>
    ensures { IfOk result (λ s. string_bytes s ≡ path_words path.now) }
{
    let mut out = String::new(alloc);
    write_path(&mut out, path.segments.as_slice())?;
    Ok(out)
}

fn write_path(out: &mut String, segments: &[Segment]) -> Result<(), AllocError>
    ensures { OnOk result (string_bytes out.new ≡ string_bytes out.old ++ path_words segments.now) }
{
    match segments {
        [] => out.push_str("."),
        [first, rest @ ..] => {
            write_segment(out, true, first)?;
            write_rest(out, rest)
        }
    }
}

fn write_rest(out: &mut String, segments: &[Segment]) -> Result<(), AllocError>
    ensures { OnOk result (string_bytes out.new ≡ string_bytes out.old ++ segments_words false segments.now) }
{
    for segment in segments {
        write_segment(out, false, segment)?;
    }
    Ok(())
}

fn write_segment(out: &mut String, first: bool, segment: &Segment) -> Result<(), AllocError>
    ensures { OnOk result (string_bytes out.new ≡ string_bytes out.old ++ segment_words first segment.now) }
{
    match segment {
        Segment::At(index) => write!(out, "[{}]", *index),
        Segment::Named(name) => {
            if first {
                write!(out, "{}", name.as_str())
            } else {
                write!(out, ".{}", name.as_str())
            }
        }
    }
}
