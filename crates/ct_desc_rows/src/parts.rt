//! The parts of a description. Each field is the member of its name; `alias` is the member `as`, and
//! `seal` the member `type`. Sizes, offsets and addresses are in bytes.

use ct_entry::{Device, Mode};
use def_desc::{Passes, Ram};
use std::marker::Model;

/// Code: the words of its text in order, or the name of the file that holds its source. A
/// well-formed description has a file exactly where it has no list of words.
#[derive(Drop)]
pub struct Code {
    pub words: Vec<u32>,
    pub file: Option<String>,
}

impl Model for Code {
    ghost use Rattle.std.specs.Prelude.{option_map, string_bytes};
    ghost use Rattle.def_desc.specs.Rows.{DescCode};

    ghost Value = { DescCode };

    ghost view = { λ x. record { words = x.words.items; file = option_map string_bytes x.file } };
}

/// Where an export begins: at a label, or at an offset in the text where there is none.
#[derive(Drop)]
pub struct At {
    pub label: Option<String>,
    pub offset: u64,
}

impl Model for At {
    ghost use Rattle.std.specs.Prelude.{option_map, string_bytes};
    ghost use Rattle.def_desc.specs.Rows.{AtRow};

    ghost Value = { AtRow };

    ghost view = { λ x. record { label = option_map string_bytes x.label; offset = x.offset } };
}

/// A shared object.
#[derive(Drop)]
pub struct Shared {
    pub name: String,
    pub size: u32,
}

impl Model for Shared {
    ghost use Rattle.std.specs.Prelude.{string_bytes};
    ghost use Rattle.def_desc.specs.Rows.{DescShared};

    ghost Value = { DescShared };

    ghost view = { λ x. record { name = string_bytes x.name; size = x.size } };
}

/// A sealed object: the type of its seal, and its first bytes.
#[derive(Drop)]
pub struct Sealed {
    pub name: String,
    pub seal: u32,
    pub bytes: Vec<u8>,
}

impl Model for Sealed {
    ghost use Rattle.std.specs.Prelude.{string_bytes};
    ghost use Rattle.def_desc.specs.Rows.{DescSealed};

    ghost Value = { DescSealed };

    ghost view = { λ x. record {
      name = string_bytes x.name;
      seal = x.seal;
      bytes = x.bytes.items;
    } };
}

/// An import of a compartment: the slot's name, and what it names by the one member that is there.
/// `rights` stands beside `device` and `shared`.
#[derive(Drop)]
pub struct Import {
    pub alias: String,
    pub device: Option<String>,
    pub rights: Option<String>,
    pub shared: Option<String>,
    pub sealed: Option<String>,
    pub call: Option<String>,
    pub service: Option<String>,
    pub library: Option<String>,
}

impl Model for Import {
    ghost use Rattle.std.specs.Prelude.{option_map, string_bytes};
    ghost use Rattle.def_desc.specs.Rows.{ImportRow};

    ghost Value = { ImportRow };

    ghost view = { λ x. record {
      alias = string_bytes x.alias;
      device = option_map string_bytes x.device;
      rights = option_map string_bytes x.rights;
      shared = option_map string_bytes x.shared;
      sealed = option_map string_bytes x.sealed;
      call = option_map string_bytes x.call;
      service = option_map string_bytes x.service;
      library = option_map string_bytes x.library;
    } };
}

/// A quota: how many bytes its owner may have on the heap.
#[derive(Drop)]
pub struct Quota {
    pub name: String,
    pub limit: u32,
}

impl Model for Quota {
    ghost use Rattle.std.specs.Prelude.{string_bytes};
    ghost use Rattle.def_desc.specs.Rows.{QuotaRow};

    ghost Value = { QuotaRow };

    ghost view = { λ x. record { name = string_bytes x.name; limit = x.limit } };
}

/// An export of a compartment: where it begins, its posture, how many arguments it takes, the stack
/// that it asks for, and what passes to it and back.
#[derive(Drop)]
pub struct Export {
    pub name: String,
    pub at: At,
    pub posture: Mode,
    pub args: u32,
    pub stack: u32,
    pub passes: Passes,
}

impl Model for Export {
    ghost use Rattle.std.specs.Prelude.{string_bytes};
    ghost use Rattle.def_desc.specs.Rows.{ExportRow};

    ghost Value = { ExportRow };

    ghost view = { λ x. record {
      name = string_bytes x.name;
      at = x.at;
      posture = x.posture;
      args = x.args;
      stack = x.stack;
      passes = x.passes;
    } };
}

/// A compartment: its code, the size of its globals, its imports, quotas, keys by the numbers of
/// their types, and exports.
#[derive(Drop)]
pub struct Compartment {
    pub name: String,
    pub code: Code,
    pub globals: u32,
    pub imports: Vec<Import>,
    pub quotas: Vec<Quota>,
    pub keys: Vec<u64>,
    pub exports: Vec<Export>,
}

impl Model for Compartment {
    ghost use Rattle.std.specs.Prelude.{string_bytes};
    ghost use Rattle.def_desc.specs.Rows.{DescCompartment};

    ghost Value = { DescCompartment };

    ghost view = { λ x. record {
      name = string_bytes x.name;
      code = x.code;
      globals = x.globals;
      imports = x.imports.items;
      quotas = x.quotas.items;
      keys = x.keys.items;
      exports = x.exports.items;
    } };
}

/// An import of a library: the slot's name, and the `library.export` that it names.
#[derive(Drop)]
pub struct LibraryImport {
    pub alias: String,
    pub library: String,
}

impl Model for LibraryImport {
    ghost use Rattle.std.specs.Prelude.{string_bytes};
    ghost use Rattle.def_desc.specs.Rows.{LimportRow};

    ghost Value = { LimportRow };

    ghost view = { λ x. record { alias = string_bytes x.alias; library = string_bytes x.library } };
}

/// An export of a library: where it begins, and its posture.
#[derive(Drop)]
pub struct LibraryExport {
    pub name: String,
    pub at: At,
    pub posture: Mode,
}

impl Model for LibraryExport {
    ghost use Rattle.std.specs.Prelude.{string_bytes};
    ghost use Rattle.def_desc.specs.Rows.{LexportRow};

    ghost Value = { LexportRow };

    ghost view = { λ x. record { name = string_bytes x.name; at = x.at; posture = x.posture } };
}

/// A library: its code, its imports and exports.
#[derive(Drop)]
pub struct Library {
    pub name: String,
    pub code: Code,
    pub imports: Vec<LibraryImport>,
    pub exports: Vec<LibraryExport>,
}

impl Model for Library {
    ghost use Rattle.std.specs.Prelude.{string_bytes};
    ghost use Rattle.def_desc.specs.Rows.{LibraryRow};

    ghost Value = { LibraryRow };

    ghost view = { λ x. record {
      name = string_bytes x.name;
      code = x.code;
      imports = x.imports.items;
      exports = x.exports.items;
    } };
}

/// A thread: the `compartment.export` that it enters, its priority, the size of its stack, and how
/// many frames it may have.
#[derive(Drop)]
pub struct Thread {
    pub name: String,
    pub entry: String,
    pub priority: u32,
    pub stack: u32,
    pub frames: u32,
}

impl Model for Thread {
    ghost use Rattle.std.specs.Prelude.{string_bytes};
    ghost use Rattle.def_desc.specs.Rows.{DescThread};

    ghost Value = { DescThread };

    ghost view = { λ x. record {
      name = string_bytes x.name;
      entry = string_bytes x.entry;
      priority = x.priority;
      stack = x.stack;
      frames = x.frames;
    } };
}

/// A description: the firmware's name, the version of its form, how many granules one slice of a
/// sweep passes, RAM, the steps from one tick to the next, and the parts.
#[derive(Drop)]
pub struct Desc {
    pub firmware: String,
    pub version: u32,
    pub sweep: u32,
    pub ram: Ram,
    pub quantum: u32,
    pub devices: Vec<Device>,
    pub shared: Vec<Shared>,
    pub sealed: Vec<Sealed>,
    pub compartments: Vec<Compartment>,
    pub libraries: Vec<Library>,
    pub threads: Vec<Thread>,
}

impl Model for Desc {
    ghost use Rattle.std.specs.Prelude.{string_bytes};
    ghost use Rattle.def_desc.specs.Rows.{DescRow};

    ghost Value = { DescRow };

    ghost view = { λ x. record {
      firmware = string_bytes x.firmware;
      version = x.version;
      sweep = x.sweep;
      ram = x.ram;
      quantum = x.quantum;
      devices = x.devices.items;
      shared = x.shared.items;
      sealed = x.sealed.items;
      compartments = x.compartments.items;
      libraries = x.libraries.items;
      threads = x.threads.items;
    } };
}
