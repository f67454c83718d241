use crate::dice::Dice;
use agent_terms::Request;
use origin_core::{Flags, PageUrl, UrlError, read_url, url_origin};
use plain_data::{Data, Text};
use std::alloc::{AllocError, Global};
use tree_log::Target;

const NAMES: [&str; 9] = [
    "", "f", "w", "x", "_top", "_PARENT", "_Self", "_blank", "_other",
];

const DOMAINS: [&str; 5] = ["a.test", "x.A.test", "test", "b.test", ""];

const PAGES: [&str; 7] = [
    "https://a.test/",
    "https://a.test/#x",
    "https://x.a.test/",
    "https://b.test/",
    "https://c.test:8443/p?q",
    "http://a.test/",
    "about:blank",
];

/// The URL that a text of this program spells.
pub fn page(alloc: Global, text: &str) -> Result<PageUrl, AllocError> {
    read_url(alloc, text, None).map_err(|_e: UrlError| AllocError)
}

/// Requests with random numbers.
#[derive(Drop)]
pub struct Requests {
    alloc: Global,
    pages: Vec<PageUrl>,
}

impl Requests {
    pub fn new(alloc: Global) -> Result<Requests, AllocError> {
        let mut pages = Vec::new(alloc);
        for text in PAGES.iter() {
            pages.push(page(alloc, text)?)?;
        }
        Ok(Requests { alloc, pages })
    }

    /// One of any kind, of this document.
    pub fn one(&self, dice: &mut Dice, asker: u32) -> Result<Request, AllocError> {
        let doc = dice.number();
        let user = dice.chance(50);
        Ok(match dice.below(15) {
            0 | 1 => Request::Next,
            2 => Request::More,
            3 => Request::Sync { asker },
            4 | 5 => Request::Frame {
                asker,
                name: self.name(dice)?,
                flags: self.flags(dice),
                url: self.url_or_none(dice)?,
            },
            6 => Request::Drop { asker, nav: doc },
            7 => Request::Open {
                asker,
                url: self.url_or_none(dice)?,
                target: self.name(dice)?,
                noopener: dice.chance(20),
                user,
            },
            8 => Request::Link {
                asker,
                url: self.url(dice)?,
                target: self.name(dice)?,
                noopener: dice.chance(20),
                user,
            },
            9 => Request::Go {
                asker,
                doc,
                url: self.url(dice)?,
                user,
            },
            10 => Request::Name {
                asker,
                doc,
                name: self.name(dice)?,
            },
            11 => Request::Disown { asker, doc },
            12 => Request::Close { asker, doc, user },
            13 => Request::Domain {
                asker,
                value: self.text(dice, &DOMAINS)?,
            },
            _ => Request::Post {
                asker,
                doc,
                target: self.target(dice)?,
                body: Data::Whole(i64::from(doc)),
            },
        })
    }

    fn text(&self, dice: &mut Dice, texts: &[&str]) -> Result<Text, AllocError> {
        Text::copy_of(self.alloc, dice.pick(texts).copied().unwrap_or(""))
    }

    fn name(&self, dice: &mut Dice) -> Result<Text, AllocError> {
        self.text(dice, &NAMES)
    }

    fn flags(&self, dice: &mut Dice) -> Flags {
        if dice.chance(20) {
            Flags::from_bits(u16::from(dice.byte()))
        } else {
            Flags::NONE
        }
    }

    fn url(&self, dice: &mut Dice) -> Result<PageUrl, AllocError> {
        match dice.pick(self.pages.as_slice()) {
            Some(url) => url.clone(),
            None => Err(AllocError),
        }
    }

    fn url_or_none(&self, dice: &mut Dice) -> Result<Option<PageUrl>, AllocError> {
        if dice.chance(20) {
            return Ok(None);
        }
        Ok(Some(self.url(dice)?))
    }

    fn target(&self, dice: &mut Dice) -> Result<Target, AllocError> {
        match dice.below(3) {
            0 => Ok(Target::Any),
            1 => Ok(Target::Never),
            _ => {
                let origin = url_origin(self.alloc, &self.url(dice)?)?;
                Ok(origin.map_or(Target::Any, Target::Origin))
            }
        }
    }
}
