//! The built-in report: a folder in memory with its metadata, its types table and one table's file.

ghost use Rattle.std.specs.Prelude.{◌≡◌, IfOk};
ghost use Rattle.oim_json.specs.declared.layout.Layout.TheVariants as layouts;
ghost use Rattle.oim_run.specs.BuiltIn.{RunsBuiltIn};
ghost use Rattle.oim_run.specs.Outputs.{RunsTold};

use crate::buffered::run_to;
use crate::early::no_memory;
use crate::outcome::Outcome;
use crate::settings::Settings;
use crate::teller::{Teller, tell};
use oim_files::Texts;
use oim_json::Layout;
use oim_names::Text;
use std::alloc::{AllocError, Global};
use std::io::Write;
use std::sync::Wait;
use std::thread::Threads;

/// The paths of its files.
const META_PATH: &str = "meta.json";

const TYPES_PATH: &str = "types.csv";

const TABLE_PATH: &str = "t1.csv";

/// The metadata, in the JSON of xBRL-CSV 1.0.
pub const METADATA: &str = r#"{"documentInfo":{"documentType":"https://xbrl.org/2021/xbrl-csv",
"namespaces":{"eg":"http://example.com/eg",
"iso4217":"http://www.xbrl.org/2003/iso4217",
"xbrli":"http://www.xbrl.org/2003/instance"},
"taxonomy":["http://example.com/eg.xsd"]},
"dimensions":{"entity":"eg:A1",
"period":"2021-01-01T00:00:00/2022-01-01T00:00:00",
"unit":"iso4217:EUR"},
"tableTemplates":{"p":{"columns":{
"cash":{"dimensions":{"concept":"eg:Cash"}},
"note":{"dimensions":{"concept":"eg:Note"}}}}},
"tables":{"t1":{"url":"t1.csv","template":"p"}}}
"#;

/// The types table, a CSV file with the types of the taxonomy's concepts and dimensions.
pub const TYPES: &str = r#"namespace,name,type
http://example.com/eg,Cash,integer
http://example.com/eg,Rate,decimal
http://example.com/eg,Mass,double
http://example.com/eg,Note,text
http://example.com/eg,Flag,other
http://example.com/eg,Region,explicit
http://example.com/eg,Branch,typed
"#;

/// The file of the table `t1`, in the CSV of xBRL-CSV 1.0.
pub const TABLE: &str = r#"cash,note
100,first
200,second
"#;

/// Returns the settings of a run over this folder, with one worker and a ring of one block.
fn built_in_settings(alloc: Global) -> Result<Settings, AllocError>
    ensures paths { IfOk result (λ s. (s.meta ≡ META_PATH.now) × (s.types ≡ TYPES_PATH.now)) }
    ensures others { IfOk result (λ s. (s.workers ≡ 1) × (s.ring ≡ 1) × (s.layout ≡ layouts.Compact)) }
{
    Ok(Settings {
        meta: Text::from_str(alloc, META_PATH)?,
        types: Text::from_str(alloc, TYPES_PATH)?,
        workers: 1,
        ring: 1,
        out: None,
        layout: Layout::Compact,
    })
}

/// Converts the built-in report to a writer through a buffer, as [`run_to`] does with a folder of
/// its files. Returns the outcome and the writer.
pub fn convert_to<T: Threads + Wait + Sync, W: Write>(rt: &T, alloc: Global, to: W) -> (Outcome, W)
    ensures { RunsBuiltIn (W.contents to) (W.contents result.1) result.0 }
{
    let Ok(settings) = built_in_settings(alloc) else {
        return (no_memory(), to);
    };
    let files = [
        (META_PATH, METADATA.as_bytes()),
        (TYPES_PATH, TYPES.as_bytes()),
        (TABLE_PATH, TABLE.as_bytes()),
    ];
    run_to(rt, alloc, &settings, &mut Texts { files: &files }, to)
}

/// Converts the built-in report to a writer as [`convert_to`] does, and prints the lines of its
/// outcome. Returns the exit status and the writer.
pub fn built_in_told<T: Threads + Wait + Sync, W: Write, L: Teller>(
    rt: &T,
    alloc: Global,
    to: W,
    teller: &mut L,
) -> (u8, W)
    ensures { RunsTold RunsBuiltIn (W.contents to) (W.contents result.1) (L.terminal teller.old) (L.said teller.old) (L.said teller.new) result.0 }
{
    let (outcome, writer) = convert_to(rt, alloc, to);
    (tell(teller, alloc, &outcome), writer)
}
