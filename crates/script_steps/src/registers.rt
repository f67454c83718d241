ghost use Rattle.std.specs.Prelude.{◌≡◌, [], ◌∷◌, ◌++◌, None, MatchOption, bytes_eq, unwrap_or, option_copied, OnOk, OnErr, IfOk};
ghost use Rattle.object_access.specs.Values.{undefined};
ghost use Rattle.object_access.specs.Registers.{unset, written};
ghost use Rattle.script_steps.specs.Rows.{found, IsPlace, IsWritten};

use crate::slots::Slots;
use plain_data::{Data, Text};
use std::alloc::{AllocError, Global};
use window_props::Value;

// A register that was written.
#[derive(Drop)]
struct Row {
    name: Text,
    value: Value,
}

// The registers of a document.
#[derive(Drop)]
struct Rows {
    rows: Vec<Row>,
}

/// What the registers of documents hold.
///
/// Contracts see `kept registers`, a value for each document and name: undefined where nothing was written. A register
/// is found by its document's number and one scan of the document's own names.
#[derive(Drop)]
pub struct Registers {
    alloc: Global,
    documents: Slots<Rows>,
}

fn is_named(row: &Row, name: &str) -> bool
    ensures { result ≡ bytes_eq name.now row.now.name }
{
    name == row.name.as_str()
}

fn find_row(rows: &[Row], name: &str) -> Option<usize>
    ensures { MatchOption result (found rows.now name.now ≡ None) (λ i. IsPlace rows.now name.now i) }
{
    for i in 0..rows.len() {
        if is_named(&rows[i], name) {
            return Some(i);
        }
    }
    None
}

// Where the row of a name stands.
fn place_of(rows: &Vec<Row>, name: &str) -> Option<usize>
    ensures { MatchOption result (found rows.now.items name.now ≡ None) (λ i. IsPlace rows.now.items name.now i) }
{
    find_row(rows.as_slice(), name)
}

// A new row at the end.
fn add(rows: &mut Vec<Row>, alloc: Global, name: &str, value: Value) -> Result<(), AllocError>
    ensures ok { OnOk result (rows.new.items ≡ rows.old.items ++ record { name = name.now; value = value } ∷ []) }
    ensures err { OnErr result (rows.new.items ≡ rows.old.items) }
{
    let name = Text::copy_of(alloc, name)?;
    rows.push(Row { name, value })?;
    Ok(())
}

impl Rows {
    ghost use Rattle.script_steps.specs.Kept.{rows_of};

    // The rows that were taken out, or none.
    fn or_none(taken: Option<Rows>, alloc: Global) -> Rows
        ensures { result.rows.items ≡ rows_of taken }
    {
        match taken {
            Some(rows) => rows,
            None => Rows {
                rows: Vec::new(alloc),
            },
        }
    }

    fn find(&self, name: &str) -> Option<&Value>
        ensures { option_copied result ≡ found self.now.rows.items name.now }
    {
        match place_of(&self.rows, name) {
            Some(i) => Some(&self.rows[i].value),
            None => None,
        }
    }

    fn write(&mut self, alloc: Global, name: &str, value: Value) -> Result<(), AllocError>
        ensures ok { OnOk result (IsWritten self.old.rows.items self.new.rows.items name.now value) }
        ensures err { OnErr result (self.new.rows.items ≡ self.old.rows.items) }
    {
        match place_of(&self.rows, name) {
            Some(i) => {
                let row = &mut self.rows[i];
                row.value = value;
                Ok(())
            }
            None => {
                add(&mut self.rows, alloc, name, value)?;
                Ok(())
            }
        }
    }
}

impl Registers {
    ghost use Rattle.script_steps.specs.Slots.{slot};
    ghost use Rattle.script_steps.specs.Kept.{kept, rows_of};

    /// Registers to which nothing was written.
    pub fn new(alloc: Global) -> Registers
        ensures { kept result ≡ unset }
    {
        Registers {
            alloc,
            documents: Slots::new(alloc),
        }
    }

    /// What a register of a document holds: undefined where nothing was written to it.
    #[tactic(auto, unfolding(crate::specs::Kept::kept))]
    pub fn get(&self, doc: u32, name: &str) -> Result<Value, AllocError>
        ensures { IfOk result (λ v. v ≡ kept self.now doc name.now) }
    {
        match self.find(doc, name) {
            Some(value) => value.clone(),
            None => Ok(Value::Plain(Data::Undefined)),
        }
    }

    /// The value that was written to a register last.
    #[tactic(auto, unfolding(crate::specs::Kept::kept))]
    pub(crate) fn find(&self, doc: u32, name: &str) -> Option<&Value>
        ensures { kept self.now doc name.now ≡ unwrap_or (option_copied result) undefined }
    {
        match self.documents.get(doc) {
            Some(rows) => rows.find(name),
            None => None,
        }
    }

    /// Writes a register of a document. After an `Err` the registers are as before.
    #[tactic(auto, unfolding(crate::specs::Kept::kept))]
    pub fn set(&mut self, doc: u32, name: &str, value: Value) -> Result<(), AllocError>
        ensures ok { OnOk result (kept self.new ≡ written doc name.now value (kept self.old)) }
        ensures err { OnErr result (kept self.new ≡ kept self.old) }
    {
        self.documents.make_room(doc)?;
        let mut rows = Rows::or_none(self.documents.take(doc), self.alloc);
        let wrote = rows.write(self.alloc, name, value);
        self.documents.put(doc, Some(rows));
        wrote
    }
}
