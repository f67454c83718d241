use crate::ask::Ask;
use crate::entries::entries_text;
use desk::PlainDesk;
use link_wire::{
    Bad, DecodeError, Fed, FrameReader, Why, decode_reply, decode_request, encode_reply,
    encode_request,
};
use std::alloc::{AllocError, Global};

/// Answers lines, one after the other, with one reader for all pieces that they feed, and the coordinator that the
/// newest line `desk` made.
#[derive(Drop)]
pub struct Lines {
    alloc: Global,
    reader: FrameReader,
    desk: Option<PlainDesk>,
}

impl Lines {
    pub fn new(alloc: Global) -> Lines {
        Lines {
            alloc,
            reader: FrameReader::new(alloc),
            desk: None,
        }
    }

    /// What answers a line: it is given without its line feed, and the answer ends with one.
    pub fn answer(&mut self, line: &[u8]) -> Result<Vec<u8>, AllocError> {
        let mut out = match line {
            [b'#', ..] => line.to_vec(self.alloc)?,
            _ => self.answer_of(line)?.into_bytes(),
        };
        out.push(b'\n')?;
        Ok(out)
    }

    fn answer_of(&mut self, line: &[u8]) -> Result<String, AllocError> {
        let ask = match str::from_utf8(line) {
            Ok(line) => Ask::read(self.alloc, line)?,
            Err(_) => None,
        };
        match ask {
            Some(Ask::Request(bytes)) => self.request_answer(&bytes),
            Some(Ask::Reply(bytes)) => self.reply_answer(&bytes),
            Some(Ask::Feed(piece)) => self.feed_answer(&piece),
            Some(Ask::Desk(desk)) => self.desk_answer(desk),
            Some(Ask::Serve { renderer, request }) => self.serve_answer(renderer, &request),
            Some(Ask::Lose { renderer }) => self.lose_answer(renderer),
            Some(Ask::Log) => self.log_answer(),
            None => self.what(),
        }
    }

    // The answer to a line that asks nothing that there is.
    fn what(&self) -> Result<String, AllocError> {
        String::from_str(self.alloc, "what")
    }

    fn request_answer(&self, bytes: &[u8]) -> Result<String, AllocError> {
        match decode_request(self.alloc, bytes) {
            Ok(request) => self.good(&encode_request(self.alloc, &request)?),
            Err(e) => self.refused(e),
        }
    }

    fn reply_answer(&self, bytes: &[u8]) -> Result<String, AllocError> {
        match decode_reply(self.alloc, bytes) {
            Ok(reply) => self.good(&encode_reply(self.alloc, &reply)?),
            Err(e) => self.refused(e),
        }
    }

    fn feed_answer(&mut self, piece: &[u8]) -> Result<String, AllocError> {
        let mut frame = Vec::new(self.alloc);
        match self.reader.feed(piece, &mut frame)? {
            Fed::More => String::from_str(self.alloc, "more"),
            Fed::Whole { used } => {
                let digits = hex::encode(self.alloc, frame.as_slice())?;
                format!(in self.alloc; "whole {used} {digits}")
            }
            Fed::Bad { place, why } => self.bad(Bad { place, why }),
        }
    }

    fn desk_answer(&mut self, desk: PlainDesk) -> Result<String, AllocError> {
        self.desk = Some(desk);
        String::from_str(self.alloc, "desk")
    }

    fn serve_answer(&mut self, renderer: u16, request: &[u8]) -> Result<String, AllocError> {
        match &mut self.desk {
            Some(desk) if renderer < desk.renderers() => {
                let mut reply = Vec::new(self.alloc);
                desk.serve(renderer, request, &mut reply)?;
                hex::encode(self.alloc, reply.as_slice())
            }
            _ => self.what(),
        }
    }

    fn lose_answer(&mut self, renderer: u16) -> Result<String, AllocError> {
        match &mut self.desk {
            Some(desk) if renderer < desk.renderers() && !desk.is_lost(renderer) => {
                desk.lose(renderer)?;
                String::from_str(self.alloc, "lost")
            }
            _ => self.what(),
        }
    }

    fn log_answer(&self) -> Result<String, AllocError> {
        match &self.desk {
            Some(desk) => entries_text(self.alloc, desk.log()),
            None => self.what(),
        }
    }

    // The encoding of what was read.
    fn good(&self, bytes: &[u8]) -> Result<String, AllocError> {
        let digits = hex::encode(self.alloc, bytes)?;
        format!(in self.alloc; "good {digits}")
    }

    fn refused(&self, e: DecodeError) -> Result<String, AllocError> {
        match e {
            DecodeError::Memory => Err(AllocError),
            DecodeError::Bad(bad) => self.bad(bad),
        }
    }

    fn bad(&self, bad: Bad) -> Result<String, AllocError> {
        let (place, why) = (bad.place, why_text(bad.why));
        format!(in self.alloc; "bad {place} {why}")
    }
}

// The format's name of the reason.
fn why_text(why: Why) -> &'static str {
    match why {
        Why::Version => "Version",
        Why::Kind => "Kind",
        Why::Length => "Length",
        Why::Short => "Short",
        Why::Text => "Text",
        Why::Range => "Range",
        Why::Url => "Url",
        Why::Tail => "Tail",
    }
}
