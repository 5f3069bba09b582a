// Reads all files, and keeps what later stages need of the items and of them.

ghost use Rattle.std.specs.Prelude.{◌≡◌, ◌∷◌, [], ◌++◌, IfOk, IfErr, OnOk};
ghost use Rattle.std.specs.List.{All};
ghost use Rattle.std.specs.Str.{IsUtf8};
ghost use Rattle.settings_core.specs.File.{file_pairs};
ghost use Rattle.cli_words.specs.Command.{item_names};
ghost use Rattle.plate_input.specs.Inner.Gathering.{with_pairs, with_settings, with_mesh, Took, Refused, HasGathered, GatherRefusal};
ghost use Rattle.plate_input.specs.Reads.{faults_after_reads, last_failed_after_reads, ReadsFiles};

use crate::faults::PlateFault;
use crate::files::read_named;
use cli_words::Item;
use outside::Shelf;
use settings_core::{FileFault, Given, Pair, read_file};
use slice_base::{Items, NoMemory, Text};
use std::alloc::Global;

/// What is kept of the items so far, and of their files.
#[derive(Drop)]
pub(crate) struct Gathered {
    /// The pairs, in order.
    pub(crate) pairs: Items<Pair>,
    /// The name of the first settings file that isn't one.
    pub(crate) not_json: Option<Text>,
    /// The extruders given with the meshes, in order.
    pub(crate) extruders: Items<u8>,
    /// The bytes of the meshes' files, in order.
    pub(crate) meshes: Items<Text>,
}

fn copied_value(alloc: Global, value: &Given) -> Result<Given, NoMemory>
    ensures { IfOk result (λ v. v ≡ value.now) }
{
    match value {
        Given::Words(text) => Ok(Given::Words(text.copy(alloc)?)),
        Given::Other => Ok(Given::Other),
    }
}

fn copied_pair(alloc: Global, pair: &Pair) -> Result<Pair, NoMemory>
    ensures { IfOk result (λ p. p ≡ pair.now) }
{
    Ok(Pair {
        scope: pair.scope,
        key: pair.key.copy(alloc)?,
        value: copied_value(alloc, &pair.value)?,
    })
}

impl Gathered {
    fn take_pair(&mut self, alloc: Global, pair: &Pair) -> Result<(), NoMemory>
        ensures { OnOk result (self.new ≡ with_pairs (pair.now ∷ []) self.old) }
    {
        self.pairs.push(copied_pair(alloc, pair)?)
    }

    fn take_pairs(&mut self, pairs: Items<Pair>) -> Result<(), NoMemory>
        ensures { OnOk result (self.new ≡ with_pairs pairs self.old) }
    {
        for pair in pairs.into_vec() {
            self.pairs.push(pair)?;
        }
        Ok(())
    }

    fn take_not_json(&mut self, alloc: Global, name: &Text) -> Result<(), NoMemory>
        ensures { OnOk result (self.new ≡ with_settings name.now None self.old) }
    {
        if self.not_json.is_some() {
            return Ok(());
        }
        self.not_json = Some(name.copy(alloc)?);
        Ok(())
    }

    fn take_settings(&mut self, alloc: Global, name: &Text, bytes: &[u8]) -> Result<(), NoMemory>
        ensures { OnOk result (self.new ≡ with_settings name.now (file_pairs bytes.now) self.old) }
    {
        match read_file(alloc, bytes) {
            Ok(pairs) => self.take_pairs(pairs),
            Err(FileFault::NotJson) => self.take_not_json(alloc, name),
            Err(FileFault::NoMemory) => Err(NoMemory),
        }
    }

    fn take_mesh(&mut self, extruder: u8, bytes: Text) -> Result<(), NoMemory>
        ensures { OnOk result (self.new ≡ with_mesh extruder bytes self.old) }
    {
        self.extruders.push(extruder)?;
        self.meshes.push(bytes)
    }
}

// Takes the next item: its pair, or its file.
fn take<Sh: Shelf>(
    alloc: Global,
    item: &Item,
    shelf: &mut Sh,
    gathered: &mut Gathered,
) -> Result<(), PlateFault>
    requires { All IsUtf8 (item_names (item.now ∷ [])) }
    ensures took { OnOk result (Took item.now gathered.old gathered.new (Sh.store shelf.old) (Sh.store shelf.new)) }
    ensures refused { IfErr result (λ r. Refused r item.now (Sh.store shelf.old) (Sh.store shelf.new)) }
    ensures files { (Sh.store shelf.new).files ≡ (Sh.store shelf.old).files }
    ensures faults { (Sh.store shelf.new).faults ≡ faults_after_reads result (Sh.store shelf.old).faults }
    ensures last_failed { (Sh.store shelf.new).last_failed ≡ last_failed_after_reads result
        (Sh.store shelf.old).last_failed }
{
    match item {
        Item::Pair(pair) => Ok(gathered.take_pair(alloc, pair)?),
        Item::Settings(name) => {
            let bytes = read_named(alloc, name, shelf)?;
            Ok(gathered.take_settings(alloc, name, bytes.bytes())?)
        }
        Item::Mesh { name, extruder } => {
            let bytes = read_named(alloc, name, shelf)?;
            Ok(gathered.take_mesh(*extruder, bytes)?)
        }
    }
}

/// Reads all files in the order of the items, up to the first that can't be read or is too long.
pub(crate) fn gather<Sh: Shelf>(
    alloc: Global,
    items: &[Item],
    shelf: &mut Sh,
) -> Result<Gathered, PlateFault>
    requires { All IsUtf8 (item_names items.now) }
    ensures gathered { IfOk result (HasGathered items.now (Sh.store shelf.old).files) }
    ensures refused { IfErr result (λ r. GatherRefusal r items.now (Sh.store shelf.old) (Sh.store shelf.new)) }
    ensures reads { ReadsFiles result items.now (Sh.store shelf.old) (Sh.store shelf.new) }
    ensures files { (Sh.store shelf.new).files ≡ (Sh.store shelf.old).files }
    ensures faults { (Sh.store shelf.new).faults ≡ faults_after_reads result (Sh.store shelf.old).faults }
    ensures last_failed { (Sh.store shelf.new).last_failed ≡ last_failed_after_reads result
        (Sh.store shelf.old).last_failed }
{
    let mut gathered = Gathered {
        pairs: Items::new(alloc),
        not_json: None,
        extruders: Items::new(alloc),
        meshes: Items::new(alloc),
    };
    for item in items {
        take(alloc, item, shelf, &mut gathered)?;
    }
    Ok(gathered)
}
