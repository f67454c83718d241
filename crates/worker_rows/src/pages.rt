use crate::steps::step_of;
use agent_terms::{Page, Step};
use origin_core::{PageUrl, page_spelled};
use plain_data::Items;
use std::alloc::{AllocError, Global};

/// A row that makes a page, or adds to one.
#[derive(Drop)]
pub enum Part {
    Page(PageUrl),
    Script(Step),
    Handler(Step),
}

impl Part {
    /// Reads a row, or none where it is of none of these forms.
    pub fn read(alloc: Global, row: &str) -> Result<Option<Part>, AllocError> {
        let (word, rest) = row.split_once(' ').unwrap_or((row, ""));
        match word {
            "page" => Ok(page_spelled(alloc, rest)?.map(Part::Page)),
            "script" => Ok(step_of(alloc, rest)?.map(Part::Script)),
            "handler" => Ok(step_of(alloc, rest)?.map(Part::Handler)),
            _ => Ok(None),
        }
    }
}

/// The pages that rows make.
pub fn pages_of(alloc: Global, rows: &[String]) -> Result<Vec<Page>, AllocError> {
    let mut pages = Vec::new(alloc);
    for row in rows {
        if let Some(part) = Part::read(alloc, row.as_str())? {
            add(alloc, &mut pages, part)?;
        }
    }
    Ok(pages)
}

// Adds a page, or a step to the newest one.
fn add(alloc: Global, pages: &mut Vec<Page>, part: Part) -> Result<(), AllocError> {
    match part {
        Part::Page(url) => {
            pages.push(Page {
                url,
                script: Items::new(alloc),
                handler: Items::new(alloc),
            })?;
        }
        Part::Script(step) => {
            if let Some(page) = pages.last_mut() {
                page.script.push(step)?;
            }
        }
        Part::Handler(step) => {
            if let Some(page) = pages.last_mut() {
                page.handler.push(step)?;
            }
        }
    }
    Ok(())
}
