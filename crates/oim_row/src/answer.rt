//! What a value gives the facts of a row, as JSON.

ghost use Rattle.std.specs.Prelude.{◌≡◌, ◌++◌, ◌≤◌, IfOk, IfSome, Ok, OnOk, codes, Some, is_ok, length, true, take};
ghost use Rattle.oim_cells.specs.Cells.{seen_meaning};
ghost use Rattle.oim_json.specs.JsonText.{decimals_text, quoted};
ghost use Rattle.oim_resolve.specs.Facts.{places, stated_read, value_read};
ghost use Rattle.oim_resolve.specs.Values.{Read};
ghost use Rattle.oim_row.specs.state.Reading.{AppendsWhere, IsTypedAnswer};
ghost use Rattle.oim_row.specs.Answers.{IsAnswer, IsSilent, decimals_json, dimension_json, is_sound_for, json_for, kind_read};
ghost use Rattle.oim_row.specs.declared.purpose.Purpose.TheVariants.{Dimension as for_dimension};

use crate::purpose::Purpose;
use crate::wanted::{is_wanted_period, is_wanted_unit};
use itoa::Buffer;
use oim_cells::{Accuracy, CellMeaning, decimals};
use oim_names::{UnitKind, qname, unit};
use oim_report::{Kind, Report, Side};
use oim_resolve::{Entry, Role, is_known_member, read_concept, read_value};
use oim_text::{TextBuffer, put_quoted, put_quoted_front};
use std::alloc::{AllocError, Global};

/// What a value gives for a purpose. An answer that is not sound gives nothing about its value.
#[derive(Drop)]
pub struct Answer {
    /// Whether the answer holds. Then the value has no fault for the purpose.
    pub is_sound: bool,
    /// The JSON text and a comma: a dimension's value or the member of decimals. Empty if the value
    /// gives nothing.
    pub json: TextBuffer,
    /// The kind of the concept that the value names, if it was read for a concept and names one.
    pub kind: Option<Kind>,
}

/// Appends a number of decimals and a comma.
fn put_places(out: &mut TextBuffer, places: i32) -> Result<(), AllocError>
    ensures { OnOk result (out.new.items ≡ out.old.items ++ decimals_text (Some places)) }
{
    let mut buffer = Buffer::new();
    out.put(b"\"decimals\":")?;
    out.put(buffer.format(places).as_bytes())?;
    out.push(b',')
}

/// Appends the decimals of a number and a comma, or nothing if the number is exact.
#[tactic(auto, unfolding(oim_json::specs::JsonText::decimals_text))]
pub fn put_decimals(out: &mut TextBuffer, accuracy: Accuracy) -> Result<(), AllocError>
    ensures { OnOk result (out.new.items ≡ out.old.items ++ decimals_text (places accuracy)) }
{
    match accuracy {
        Accuracy::Places(places) => put_places(out, places),
        Accuracy::Infinite => Ok(()),
    }
}

/// Appends the decimals that a value states, and returns whether it has no fault as decimals.
#[tactic(auto, unfolding(oim_json::specs::JsonText::decimals_text))]
fn put_stated(out: &mut TextBuffer, value: CellMeaning<'_>) -> Result<bool, AllocError>
    ensures sound { IfOk result (λ sound. sound ≡ is_ok (stated_read (Read (seen_meaning value.entry)))) }
    ensures text { OnOk result (out.new.items ≡ out.old.items ++ decimals_json (seen_meaning value.entry)) }
{
    match value {
        CellMeaning::Absent => Ok(true),
        CellMeaning::Unknown | CellMeaning::Nil | CellMeaning::Empty => Ok(false),
        CellMeaning::Text(text) => match decimals(text) {
            Some(accuracy) => {
                put_decimals(out, accuracy)?;
                Ok(true)
            }
            None => Ok(false),
        },
    }
}

/// Appends what a dimension gives a fact, and a comma.
#[tactic(auto, using(std::proofs::Common::append_assoc), unfolding(oim_json::specs::JsonText::value_text))]
fn put_entry(out: &mut TextBuffer, entry: &Entry) -> Result<(), AllocError>
    ensures { OnOk result (out.new.items ≡ out.old.items ++ dimension_json entry.now) }
{
    match entry {
        Some(Some(text)) => {
            put_quoted(out, text.as_str())?;
            out.push(b',')?;
            Ok(())
        }
        Some(None) => out.put(b"null,"),
        None => Ok(()),
    }
}

/// Appends a text and a comma if it has the required form, and returns whether it has.
#[tactic(auto, using(std::proofs::Common::append_assoc))]
fn put_formed(out: &mut TextBuffer, has_form: bool, text: &str) -> Result<bool, AllocError>
    ensures header { IfOk result (λ sound. sound ≡ has_form) }
    ensures text { IfOk result (AppendsWhere out.old.items (quoted text.now ++ codes ",") out.new.items) }
{
    if has_form {
        put_quoted(out, text)?;
        out.push(b',')?;
    }
    Ok(has_form)
}

/// Appends what a value gives a dimension, by reading it first because its written form may differ.
/// Returns whether it has no fault there.
fn put_read(
    alloc: Global,
    out: &mut TextBuffer,
    report: &Report,
    role: Role,
    side: Side,
    value: CellMeaning<'_>,
) -> Result<bool, AllocError>
    ensures sound { IfOk result (λ sound. sound ≡ is_ok (value_read report.now role side (seen_meaning value.entry))) }
    ensures text { IfOk result (AppendsWhere out.old.items (json_for report.now (for_dimension role side) (seen_meaning value.entry)) out.new.items) }
{
    let read = read_value(alloc, report, role, side, value)?;
    let Ok(entry) = read else {
        return Ok(false);
    };
    put_entry(out, &entry)?;
    Ok(true)
}

/// Appends what a value gives a dimension, and returns whether it has no fault there.
///
/// A text that is given unchanged is not copied first. Without that: `members` +3.5 %.
fn put_dimension(
    alloc: Global,
    out: &mut TextBuffer,
    report: &Report,
    role: Role,
    side: Side,
    value: CellMeaning<'_>,
) -> Result<bool, AllocError>
    ensures sound { IfOk result (λ sound. sound ≡ is_ok (value_read report.now role side (seen_meaning value.entry))) }
    ensures text { IfOk result (AppendsWhere out.old.items (json_for report.now (for_dimension role side) (seen_meaning value.entry)) out.new.items) }
{
    let names = report.namespaces();
    match (role, value) {
        (Role::Unit, CellMeaning::Text(text)) => match unit(names, text) {
            Some(UnitKind::Pure) => Ok(true),
            Some(UnitKind::Written) => put_formed(out, true, text),
            None => Ok(false),
        },
        (Role::Explicit, CellMeaning::Text(text)) => {
            let is_member = qname(names, text).is_some() && is_known_member(report, text);
            put_formed(out, is_member, text)
        }
        _ => put_read(alloc, out, report, role, side, value),
    }
}

/// Appends what a value gives for a purpose and a comma, and returns whether it has no fault for
/// it.
fn put_for(
    alloc: Global,
    out: &mut TextBuffer,
    report: &Report,
    purpose: Purpose,
    value: CellMeaning<'_>,
) -> Result<bool, AllocError>
    ensures sound { IfOk result (λ sound. sound ≡ is_sound_for report.now purpose (seen_meaning value.entry)) }
    ensures text { IfOk result (AppendsWhere out.old.items (json_for report.now purpose (seen_meaning value.entry)) out.new.items) }
{
    match purpose {
        Purpose::Decimals => put_stated(out, value),
        Purpose::Dimension(role, side) => put_dimension(alloc, out, report, role, side, value),
        Purpose::WantedUnit(wanted) => Ok(is_wanted_unit(report, wanted, value)),
        Purpose::WantedPeriod(wanted, side) => Ok(is_wanted_period(wanted, side, value)),
    }
}

/// Returns the kind of the concept that a value names, if it is read for a concept and has no fault
/// as one.
fn concept_of(report: &Report, purpose: Purpose, value: CellMeaning<'_>) -> Option<Kind>
    ensures { IfSome result (λ kind. kind_read report.now (seen_meaning value.entry) ≡ Some kind) }
{
    let Purpose::Dimension(Role::Concept, _) = purpose else {
        return None;
    };
    match read_concept(report, value) {
        Ok(kind) => Some(kind),
        Err(_) => None,
    }
}

impl Answer {
    /// Makes an answer that gives nothing about any value. It takes no memory.
    pub fn new(alloc: Global) -> Answer
        ensures { IsSilent result }
    {
        Answer {
            is_sound: false,
            json: TextBuffer::new(alloc),
            kind: None,
        }
    }

    /// Makes the answer unsound and empty, and keeps its memory.
    pub(crate) fn forget(&mut self)
        ensures { IsSilent self.new }
    {
        self.is_sound = false;
        self.json.clear();
        self.kind = None;
    }

    /// Reads a value and replaces the last one. If memory runs out, the answer is not sound.
    #[inline(never)]
    pub fn read(
        &mut self,
        alloc: Global,
        report: &Report,
        purpose: Purpose,
        value: CellMeaning<'_>,
    ) -> Result<(), AllocError>
        ensures { IsAnswer report.now purpose (seen_meaning value.entry) self.new }
    {
        self.forget();
        let is_sound = put_for(alloc, &mut self.json, report, purpose, value)?;
        self.json.pad()?;
        self.kind = concept_of(report, purpose, value);
        self.is_sound = is_sound;
        Ok(())
    }

    /// Reads the first `len` bytes of a text as the value of a typed dimension. If memory runs out,
    /// the answer is not sound.
    #[inline(always)]
    pub(crate) fn read_typed(&mut self, text: &[u8], len: usize) -> Result<(), AllocError>
        requires { len ≤ length text.now }
        ensures { IsTypedAnswer (take len text.now) self.new }
    {
        self.forget();
        put_quoted_front(&mut self.json, text, len)?;
        self.json.push(b',')?;
        self.is_sound = true;
        Ok(())
    }
}
