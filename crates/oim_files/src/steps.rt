//! The steps that read a report from its files. Each step reads a file, or fails with the early
//! fault that names the file and its fault.

ghost use Rattle.std.specs.Prelude.{◌≡◌, ◌⊎◌, ◌++◌, [], ◌∷◌, IfErr, IfOk, IfSome, Ok, Some, false, option_map, string_bytes, true};
ghost use Rattle.std.specs.Option.{option_to_list};
ghost use Rattle.serde_json.specs.View.{view};
ghost use Rattle.oim_meta.specs.Reading.{Reads};
ghost use Rattle.oim_files.specs.FileFaults.{of_metadata};
ghost use Rattle.oim_files.specs.Metadata.{front_within, profile, report_in as said_in, url_finding, url_place};
ghost use Rattle.oim_files.specs.Steps as spec;
ghost use Rattle.oim_files.specs.Steps.{GivesReport, GivesRest, IsAmong, IsParameters, IsTypes, Takes, TakesTo, bytes_at, front_at, looking, metadata_steps, opening, url_of};
ghost use Rattle.oim_files.specs.declared.early_fault.EarlyFault.TheVariants as early;
ghost use Rattle.oim_files.specs.declared.early_fault.Source.TheVariants as source;
ghost use Rattle.oim_entries.specs.declared.fault.MetaFault.TheVariants as refused;

use crate::early_fault::{EarlyFault, FileFault, Source};
use crate::folder::Folder;
use crate::watched::Watched;
use oim_entries::{read_parameters_at, read_types_at};
use oim_meta::{
    Finding, Limits, MetaFault, Metadata, Parameters, Refusal, Report, Types, parameter_url,
};
use oim_names::{Items, Text};
use std::alloc::{AllocError, Global};
use std::io::Read;

/// Returns the path of a file in the report's folder.
pub fn path_in(alloc: Global, base: &str, url: &str) -> Result<String, AllocError>
    ensures { IfOk result (λ s. string_bytes s ≡ base.now ++ url.now) }
{
    let mut path = String::from_str(alloc, base)?;
    path.push_str(url)?;
    Ok(path)
}

/// Returns the fault that the file at this path cannot be opened, or `Memory`.
fn cannot_read(alloc: Global, path: &str) -> EarlyFault
    ensures { (result ≡ early.CannotRead path.now) ⊎ (result ≡ early.Memory) }
{
    match Text::from_str(alloc, path) {
        Ok(path) => EarlyFault::CannotRead(path),
        Err(_) => EarlyFault::Memory,
    }
}

/// Opens the file at a path.
fn opened<R: Read + Drop, F: Folder<R>>(
    alloc: Global,
    folder: &mut F,
    path: &str,
) -> Result<R, EarlyFault>
    ensures same { F.files folder.new ≡ F.files folder.old }
    ensures gives { IfSome (F.files folder.old) (λ files.
        Takes (opening files path.now ∷ []) (λ r. R.remaining r ≡ Some (bytes_at files path.now)) result) }
{
    match folder.open(path) {
        Some(reader) => Ok(reader),
        None => Err(cannot_read(alloc, path)),
    }
}

/// Returns the early fault of a file as a whole.
fn whole(alloc: Global, source: Source, fault: MetaFault) -> EarlyFault
    ensures { result ≡ spec.whole source fault }
{
    EarlyFault::Report(source, FileFault::of_whole(alloc, fault))
}

/// Returns why the metadata was not read to its end: a read has failed, or memory ran out.
fn unread(alloc: Global, has_failed: bool) -> EarlyFault
    ensures read { has_failed ≡ true → result ≡ spec.whole source.Report refused.Read }
    ensures memory { has_failed ≡ false → result ≡ early.Memory }
    ensures one { IsAmong result (spec.whole source.Report refused.Read ∷ early.Memory ∷ []) }
{
    if has_failed {
        return whole(alloc, Source::Report, MetaFault::Read);
    }
    EarlyFault::Memory
}

/// Reads a metadata, up to one byte past the limit. Fails with Read if a read has failed, and
/// otherwise with Memory.
fn bytes_of<R: Read + Drop>(alloc: Global, reader: &mut Watched<R>) -> Result<Vec<u8>, EarlyFault>
    ensures bytes { IfSome (R.remaining reader.old.reader) (λ bytes. IfOk result (λ v. v.items ≡ front_within profile bytes)) }
    ensures refused { IfErr result (λ e. IsAmong e (spec.whole source.Report refused.Read ∷ early.Memory ∷ [])) }
    ensures read { IfErr result (λ e. reader.new.has_failed ≡ true → e ≡ spec.whole source.Report refused.Read) }
    ensures memory { IfErr result (λ e. reader.new.has_failed ≡ false → e ≡ early.Memory) }
{
    let mut bytes = Vec::new(alloc);
    let most = Limits::profile().metadata as u64 + 1;
    match Read::take(&mut *reader, most).read_to_end(&mut bytes) {
        Ok(_) => Ok(bytes),
        Err(_) => Err(unread(alloc, reader.has_failed())),
    }
}

/// Reads the metadata file, up to one byte past the limit.
pub fn metadata_at<R: Read + Drop, F: Folder<R>>(
    alloc: Global,
    folder: &mut F,
    path: &str,
) -> Result<Vec<u8>, EarlyFault>
    ensures same { F.files folder.new ≡ F.files folder.old }
    ensures gives { IfSome (F.files folder.old) (λ files. Takes (metadata_steps files path.now) (λ v. v.items ≡ front_at files path.now) result) }
{
    match opened(alloc, folder, path) {
        Ok(reader) => bytes_of(alloc, &mut Watched::new(reader)),
        Err(early) => Err(early),
    }
}

/// Reads the types table.
pub fn types_in<R: Read + Drop, F: Folder<R>>(
    alloc: Global,
    folder: &mut F,
    path: &str,
) -> Result<Types, EarlyFault>
    ensures same { F.files folder.new ≡ F.files folder.old }
    ensures gives { IfSome (F.files folder.old) (λ files. IsTypes files path.now result) }
{
    let reader = match opened(alloc, folder, path) {
        Ok(reader) => reader,
        Err(early) => return Err(early),
    };
    match read_types_at(alloc, reader) {
        Ok(types) => Ok(types),
        Err(refusal) => {
            let fault = FileFault::of_refusal(alloc, None, MetaFault::BadTypes, refusal);
            Err(EarlyFault::Report(Source::Types, fault))
        }
    }
}

/// Reads the parameters file whose path is `base` followed by `url`.
fn parameters_of<R: Read + Drop, F: Folder<R>>(
    alloc: Global,
    folder: &mut F,
    base: &str,
    url: &str,
) -> Result<Parameters, EarlyFault>
    ensures same { F.files folder.new ≡ F.files folder.old }
    ensures gives { IfSome (F.files folder.old) (λ files. IsParameters files base.now (Some url.now) result) }
{
    let Ok(path) = path_in(alloc, base, url) else {
        return Err(EarlyFault::Memory);
    };
    let reader = match opened(alloc, folder, path.as_str()) {
        Ok(reader) => reader,
        Err(early) => return Err(early),
    };
    match read_parameters_at(alloc, reader) {
        Ok(parameters) => Ok(parameters),
        Err(refusal) => {
            let path = Some(Text::new(path));
            let fault = FileFault::of_refusal(alloc, path, MetaFault::BadParameter, refusal);
            Err(EarlyFault::Report(Source::Parameters, fault))
        }
    }
}

/// Reads the parameters file with this URL. Returns no parameters if there is no URL.
pub fn parameters_in<R: Read + Drop, F: Folder<R>>(
    alloc: Global,
    folder: &mut F,
    base: &str,
    url: Option<Text>,
) -> Result<Parameters, EarlyFault>
    ensures same { F.files folder.new ≡ F.files folder.old }
    ensures gives { IfSome (F.files folder.old) (λ files. IsParameters files base.now url result) }
{
    match url {
        Some(url) => parameters_of(alloc, folder, base, url.as_str()),
        None => Ok(Parameters::none(alloc)),
    }
}

/// Converts a string to a text, if there is one.
fn text_of(string: Option<String>) -> Option<Text>
    ensures { result ≡ option_map string_bytes string }
{
    match string {
        Some(string) => Some(Text::new(string)),
        None => None,
    }
}

/// Returns the keys of a place. The second one is optional.
fn keys_of(alloc: Global, first: &str, second: Option<&str>) -> Result<Items<Text>, AllocError>
    ensures { IfOk result (λ keys. keys ≡ first.now ∷ option_to_list (option_map (λ k. k.now) second.entry)) }
{
    let mut keys = Vec::new(alloc);
    keys.push(Text::from_str(alloc, first)?)?;
    if let Some(second) = second {
        keys.push(Text::from_str(alloc, second)?)?;
    }
    Ok(Items::from_vec(keys))
}

/// Returns the place of a fault that is tested with the name of the parameters file.
fn url_place(alloc: Global, fault: MetaFault) -> Result<Items<Text>, AllocError>
    ensures { IfOk result (λ keys. keys ≡ url_place fault) }
{
    match fault {
        MetaFault::NotReport => keys_of(alloc, "documentInfo", Some("documentType")),
        MetaFault::BadParameter => keys_of(alloc, "parameterURL", None),
        _ => Ok(Items::new(alloc)),
    }
}

/// Returns the early fault for a fault that is tested with the name of the parameters file. It is
/// the fault Memory if memory runs out for the place.
fn of_url(alloc: Global, fault: MetaFault) -> EarlyFault
    ensures { (result ≡ early.Report source.Report (of_metadata (url_finding fault))) ⊎ (result ≡ spec.whole source.Report refused.Memory) }
{
    match url_place(alloc, fault) {
        Ok(place) => {
            let fault = FileFault::of_metadata(Finding { fault, place });
            EarlyFault::Report(Source::Report, fault)
        }
        Err(_) => whole(alloc, Source::Report, MetaFault::Memory),
    }
}

/// Returns the URL of the parameters file, if the metadata has one.
pub fn url_in(alloc: Global, metadata: &[u8]) -> Result<Option<Text>, EarlyFault>
    ensures gives { TakesTo (looking (url_of metadata.now) ∷ []) (url_of metadata.now) result }
{
    match parameter_url(alloc, metadata, &Limits::profile()) {
        Ok(url) => Ok(text_of(url)),
        Err(fault) => Err(of_url(alloc, fault)),
    }
}

/// Returns the metadata that has these bytes, and the URL of its parameters file, if it has one.
/// Drops the bytes.
fn metadata_in(alloc: Global, bytes: Vec<u8>) -> Result<(Metadata, Option<Text>), EarlyFault>
    ensures gives { Takes (looking (url_of bytes.items) ∷ []) (λ m. Reads profile bytes.items (view m.0) × (url_of bytes.items ≡ Ok m.1)) result }
{
    let metadata = match Metadata::read(alloc, bytes.as_slice(), &Limits::profile()) {
        Ok(metadata) => metadata,
        Err(fault) => return Err(whole(alloc, Source::Report, fault)),
    };
    match metadata.parameter_url(alloc) {
        Ok(url) => Ok((metadata, text_of(url))),
        Err(fault) => Err(of_url(alloc, fault)),
    }
}

/// Makes the report of a metadata, with its parameters and its types.
fn report_in(
    alloc: Global,
    metadata: Metadata,
    parameters: Parameters,
    types: Types,
) -> Result<Report, EarlyFault>
    ensures gives { TakesTo (looking (said_in profile parameters types (view metadata)) ∷ []) (said_in profile parameters types (view metadata)) result }
{
    match metadata.report_at(alloc, parameters, types, Limits::profile()) {
        Ok(report) => Ok(report),
        Err(Refusal::Found(finding)) => {
            let fault = FileFault::of_metadata(finding);
            Err(EarlyFault::Report(Source::Report, fault))
        }
        Err(Refusal::Memory) => Err(whole(alloc, Source::Report, MetaFault::Memory)),
    }
}

/// Returns the report that the files of a folder give with the metadata of these bytes, as
/// `report_of` does once it has read them. They are what `metadata_at` returns.
pub fn report_with<R: Read + Drop, F: Folder<R>>(
    alloc: Global,
    folder: &mut F,
    base: &str,
    bytes: Vec<u8>,
    types: &str,
) -> Result<Report, EarlyFault>
    ensures same { F.files folder.new ≡ F.files folder.old }
    ensures gives { IfSome (F.files folder.old) (λ files. GivesRest files base.now bytes.items types.now result) }
{
    let types = match types_in(alloc, folder, types) {
        Ok(types) => types,
        Err(early) => return Err(early),
    };
    let (metadata, url) = match metadata_in(alloc, bytes) {
        Ok(found) => found,
        Err(early) => return Err(early),
    };
    let parameters = match parameters_in(alloc, folder, base, url) {
        Ok(parameters) => parameters,
        Err(early) => return Err(early),
    };
    report_in(alloc, metadata, parameters, types)
}

/// Returns the report that the files of a folder give: the metadata at `meta`, the types table at
/// `types`, and the parameters file that the metadata names, at `base` followed by its URL.
///
/// Fails with the early fault that names the first fault, in this order: the metadata, up to one
/// byte past the limit, then the types table, then the parameters file; last, the report is made
/// from the metadata. A failed read gives `Read` (17) with the source of its file, and running out
/// of memory gives `Memory`. Either may end it at an earlier step, or instead of that step's fault.
pub fn report_of<R: Read + Drop, F: Folder<R>>(
    alloc: Global,
    folder: &mut F,
    base: &str,
    meta: &str,
    types: &str,
) -> Result<Report, EarlyFault>
    ensures same { F.files folder.new ≡ F.files folder.old }
    ensures gives { IfSome (F.files folder.old) (λ files. GivesReport files base.now meta.now types.now result) }
{
    let bytes = match metadata_at(alloc, folder, meta) {
        Ok(bytes) => bytes,
        Err(early) => return Err(early),
    };
    report_with(alloc, folder, base, bytes, types)
}
