//! A dimension that a level writes, prepared for the rows.

ghost use Rattle.std.specs.Prelude.{◌≡◌, List, None, IfOk, map};
ghost use Rattle.std.specs.List.{All};
ghost use Rattle.oim_resolve.specs.Facts.{role_of};
ghost use Rattle.oim_fast.specs.state.FrameParts.{IsPart, PutsAnswer};
ghost use Rattle.oim_fast.specs.state.Pieces.{name_text};
ghost use Rattle.oim_row.specs.References.{Grows, IsFresh, Key, key_of};
ghost use Rattle.oim_row.specs.Sources.{source_written};

use crate::frame::constant::constant_of;
use oim_report::{Kind, Written};
use oim_resolve::{Role, side_of};
use oim_row::{Answer, Purpose, References, TableRow, source_of};
use oim_rows::TableHeader;
use oim_text::{TextBuffer, put_quoted};
use std::alloc::{AllocError, Global};

/// What a dimension gives a fact.
#[derive(Clone, Copy)]
pub(crate) enum PartValue {
    Nothing,
    /// The part's text: name and value, with a comma after them.
    Text,
    /// The part's text, which is name and colon, and then what the reference at a place gives.
    Reference(usize),
    /// It is not known: the fast way leaves the facts that have it.
    Unknown,
}

/// A dimension that a level writes.
#[derive(Drop)]
pub(crate) struct FramePart<'a> {
    pub(crate) name: &'a str,
    pub(crate) written: &'a Written,
    pub(crate) role: Role,
    pub(crate) value: PartValue,
    pub(crate) text: TextBuffer,
    /// The kind of the concept that it names, if it names the same one in each row.
    pub(crate) kind: Option<Kind>,
}

/// Returns the name of a dimension in quotes, with its colon.
#[tactic(auto, using(std::proofs::Common::append_assoc))]
fn name_of(alloc: Global, name: &str) -> Result<TextBuffer, AllocError>
    ensures { IfOk result (λ t. t.items ≡ name_text name.now) }
{
    let mut text = TextBuffer::new(alloc);
    put_quoted(&mut text, name)?;
    text.push(b':')?;
    Ok(text)
}

/// Puts the JSON text of an answer after the name of its dimension.
fn put_answer(text: &mut TextBuffer, answer: &Answer) -> Result<PartValue, AllocError>
    ensures { IfOk result (λ value. PutsAnswer answer.now text.old.items text.new.items value) }
{
    if !answer.is_sound {
        return Ok(PartValue::Unknown);
    }
    if answer.json.len() == 0 {
        return Ok(PartValue::Nothing);
    }
    text.put(answer.json.as_slice())?;
    Ok(PartValue::Text)
}

impl<'a> FramePart<'a> {
    /// Prepares a dimension whose meaning is the same in each row.
    fn constant(
        alloc: Global,
        header: &TableHeader<'a>,
        role: Role,
        name: &'a str,
        written: &'a Written,
    ) -> Result<FramePart<'a>, AllocError>
        requires same { source_written header.now written.now ≡ None }
        requires role { role ≡ role_of header.now.report name.now }
        ensures part { (keys : List Key) → IfOk result (λ p. IsPart header.now keys p) }
        ensures named { IfOk result (λ p. (p.name.now ≡ name.now) × (p.written.now ≡ written.now)) }
    {
        let mut answer = Answer::new(alloc);
        let purpose = Purpose::Dimension(role, side_of(written));
        answer.read(
            alloc,
            header.report(),
            purpose,
            constant_of(header, written),
        )?;
        let mut text = name_of(alloc, name)?;
        let value = put_answer(&mut text, &answer)?;
        Ok(FramePart {
            name,
            written,
            role,
            value,
            text,
            kind: answer.kind,
        })
    }

    /// Prepares a dimension. If it needs a reference that does not exist yet, makes it.
    pub(crate) fn new(
        alloc: Global,
        row: &TableRow<'a, '_>,
        references: &mut References<'a>,
        name: &'a str,
        written: &'a Written,
    ) -> Result<FramePart<'a>, AllocError>
        requires { All (IsFresh row.now) references.old }
        ensures part { IfOk result (λ p. IsPart row.now.header (map key_of references.new) p) }
        ensures named { IfOk result (λ p. (p.name.now ≡ name.now) × (p.written.now ≡ written.now)) }
        ensures fresh { All (IsFresh row.now) references.new }
        ensures grows { Grows references.old references.new }
    {
        let role = Role::of(row.report(), name);
        let Some(source) = source_of(row.header(), written) else {
            return FramePart::constant(alloc, row.header(), role, name, written);
        };
        let text = name_of(alloc, name)?;
        let purpose = Purpose::Dimension(role, side_of(written));
        let place = references.place_for(alloc, row, purpose, source)?;
        Ok(FramePart {
            name,
            written,
            role,
            value: PartValue::Reference(place),
            text,
            kind: None,
        })
    }
}
