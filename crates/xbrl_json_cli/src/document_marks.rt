//! What a document in xBRL-JSON says of each fact, byte by byte.

ghost use Rattle.std.specs.Prelude.{◌≡◌};
ghost use Rattle.xbrl_json_cli.specs.DocumentMarks.{facts_after, key_mark, mark_at, marked_after, named_after, property_mark};

use crate::json_place;
use crate::json_place::{JsonPlace, START, Within};

/// The number of the key `facts`, and of the keys of a fact that are counted.
const FACTS: u64 = 0x66_61_63_74_73;

const DECIMALS: u64 = 0x64_65_63_69_6d_61_6c_73;

const ENTITY: u64 = 0x65_6e_74_69_74_79;

const PERIOD: u64 = 0x70_65_72_69_6f_64;

const UNIT: u64 = 0x75_6e_69_74;

/// A place in a document.
#[derive(Clone, Copy, Drop)]
pub struct DocumentPlace {
    pub json: JsonPlace,
    /// Whether the document's `facts` have begun.
    pub are_facts: bool,
    /// Whether the table's identifier has ended in the text that the place is in.
    pub is_named: bool,
}

/// The place before a document's first byte.
pub const DOCUMENT_START: DocumentPlace = DocumentPlace {
    json: START,
    are_facts: false,
    is_named: false,
};

/// What a byte of a document tells.
#[derive(Clone, Copy, PartialEq, Eq, Drop)]
pub enum DocumentMark {
    Nothing,
    /// The byte is one of the identifier of a fact's table.
    Name,
    /// That identifier has ended, so there is one more fact.
    Fact,
    /// The fact has decimals, an entity, a period, a unit.
    Decimals,
    Entity,
    Period,
    Unit,
}

/// Returns what the end of a key of a fact's dimensions tells.
#[inline(always)]
fn property(key: u64) -> DocumentMark
    ensures { result ≡ property_mark key }
{
    match key {
        ENTITY => DocumentMark::Entity,
        PERIOD => DocumentMark::Period,
        UNIT => DocumentMark::Unit,
        _ => DocumentMark::Nothing,
    }
}

/// Returns what a byte of a key among the facts tells.
#[inline(always)]
fn in_key(place: DocumentPlace, byte: u8) -> DocumentMark
    ensures { result ≡ key_mark place byte }
{
    match (place.json.depth, byte) {
        (2, b'"') => DocumentMark::Nothing,
        (2, _) if place.is_named => DocumentMark::Nothing,
        (2, b'.') => DocumentMark::Fact,
        (2, _) => DocumentMark::Name,
        (3, b'"') if place.json.key == DECIMALS => DocumentMark::Decimals,
        (4, b'"') => property(place.json.key),
        _ => DocumentMark::Nothing,
    }
}

/// Returns what a byte at a place tells.
#[inline(always)]
pub fn mark(place: DocumentPlace, byte: u8) -> DocumentMark
    ensures { result ≡ mark_at place byte }
{
    match place.json.within {
        Within::Text if place.are_facts && place.json.is_key => in_key(place, byte),
        _ => DocumentMark::Nothing,
    }
}

/// Returns whether the document's `facts` have begun after a byte.
#[inline(always)]
fn begin_facts(place: DocumentPlace, byte: u8) -> bool
    ensures { result ≡ facts_after place byte }
{
    match (place.json.within, byte) {
        (Within::Text, b'"') if place.json.is_key && place.json.depth == 1 => {
            place.json.key == FACTS
        }
        _ => place.are_facts,
    }
}

/// Returns whether the table's identifier has ended after a byte.
#[inline(always)]
fn ends_name(place: DocumentPlace, byte: u8) -> bool
    ensures { result ≡ named_after place byte }
{
    match place.json.within {
        Within::Nothing => place.is_named && byte != b'"',
        _ => place.is_named || byte == b'.',
    }
}

/// Returns the place after a byte.
#[inline(always)]
pub fn after(place: DocumentPlace, byte: u8) -> DocumentPlace
    ensures { result ≡ marked_after place byte }
{
    DocumentPlace {
        json: json_place::after(place.json, byte),
        are_facts: begin_facts(place, byte),
        is_named: ends_name(place, byte),
    }
}
