//! The parts of an image (docs/use/image.md), as def_image's Parts has them. Bases and lengths count
//! bytes.

use ct_entry::Devices;
use ct_tables::{ExportRow, ImportRow};
use std::marker::Model;

/// A slot of an import table: its row, and its name.
#[derive(Drop)]
pub struct Slot {
    pub row: ImportRow,
    pub name: String,
}

impl Model for Slot {
    ghost use Rattle.std.specs.Prelude.{string_bytes};
    ghost use Rattle.def_image.specs.Parts.{SlotRow};

    ghost Value = { SlotRow };

    ghost view = { λ s. record { row = s.row; name = string_bytes s.name } };
}

/// An export: its row, and its name.
#[derive(Drop)]
pub struct Export {
    pub row: ExportRow,
    pub name: String,
}

impl Model for Export {
    ghost use Rattle.std.specs.Prelude.{string_bytes};
    ghost use Rattle.def_image.specs.Parts.{GateRow};

    ghost Value = { GateRow };

    ghost view = { λ x. record { row = x.row; name = string_bytes x.name } };
}

/// A shared object.
#[derive(Drop)]
pub struct Shared {
    pub name: String,
    pub base: u32,
    pub length: u32,
}

impl Model for Shared {
    ghost use Rattle.std.specs.Prelude.{string_bytes};
    ghost use Rattle.def_image.specs.Parts.{SharedRow};

    ghost Value = { SharedRow };

    ghost view = { λ s. record {
      name = string_bytes s.name;
      base = s.base;
      length = s.length;
    } };
}

/// A sealed object: its region, the type that it is sealed with, and the bytes that it begins with.
#[derive(Drop)]
pub struct Sealed {
    pub name: String,
    pub base: u32,
    pub length: u32,
    pub seal: u32,
    pub bytes: Vec<u8>,
}

impl Model for Sealed {
    ghost use Rattle.std.specs.Prelude.{string_bytes};
    ghost use Rattle.def_image.specs.Parts.{SealedRow};

    ghost Value = { SealedRow };

    ghost view = { λ s. record {
      name = string_bytes s.name;
      base = s.base;
      length = s.length;
      seal = s.seal;
      bytes = s.bytes.items;
    } };
}

/// What compartments and libraries have: the region of slots and text, and what stands there.
#[derive(Drop)]
pub struct Code {
    pub name: String,
    pub base: u32,
    pub length: u32,
    pub slots: Vec<Slot>,
    pub exports: Vec<Export>,
    pub text: Vec<u8>,
}

impl Model for Code {
    ghost use Rattle.std.specs.Prelude.{string_bytes};
    ghost use Rattle.def_image.specs.Parts.{CodeRow};

    ghost Value = { CodeRow };

    ghost view = { λ c. record {
      name = string_bytes c.name;
      base = c.base;
      length = c.length;
      slots = c.slots.items;
      exports = c.exports.items;
      text = c.text.items;
    } };
}

/// A compartment: its code, the bases of its export table and globals, the length of the globals,
/// and the bytes that these begin with.
#[derive(Drop)]
pub struct Compartment {
    pub code: Code,
    pub table: u32,
    pub globals: u32,
    pub globals_length: u32,
    pub initial: Vec<u8>,
}

impl Model for Compartment {
    ghost use Rattle.def_image.specs.Parts.{CompartmentRow};

    ghost Value = { CompartmentRow };

    ghost view = { λ c. record {
      code = c.code;
      table = c.table;
      globals = c.globals;
      globals_length = c.globals_length;
      initial = c.initial.items;
    } };
}

/// A thread: its stack, the index of the compartment that it enters, the index there of the export,
/// its priority, and how many frames it may have.
#[derive(Drop)]
pub struct Thread {
    pub name: String,
    pub stack: u32,
    pub stack_length: u32,
    pub compartment: u32,
    pub export: u32,
    pub priority: u32,
    pub frames: u32,
}

impl Model for Thread {
    ghost use Rattle.std.specs.Prelude.{string_bytes};
    ghost use Rattle.def_image.specs.Parts.{ThreadRow};

    ghost Value = { ThreadRow };

    ghost view = { λ t. record {
      name = string_bytes t.name;
      stack = t.stack;
      stack_length = t.stack_length;
      compartment = t.compartment;
      export = t.export;
      priority = t.priority;
      frames = t.frames;
    } };
}

/// An image's parts: the version of its format, the sweep rate in granules a slice, the quantum in
/// steps, RAM's base and size, the bases of the trusted region and of the heap, the firmware's name,
/// and the lists.
#[derive(Drop)]
pub struct Parts {
    pub version: u32,
    pub sweep: u32,
    pub quantum: u32,
    pub ram: u32,
    pub size: u32,
    pub trusted: u32,
    pub heap: u32,
    pub name: String,
    pub devices: Devices,
    pub shared: Vec<Shared>,
    pub sealed: Vec<Sealed>,
    pub compartments: Vec<Compartment>,
    pub libraries: Vec<Code>,
    pub threads: Vec<Thread>,
}

impl Model for Parts {
    ghost use Rattle.std.specs.Prelude.{string_bytes};
    ghost use Rattle.def_image.specs.Parts.{PartsRow};

    ghost Value = { PartsRow };

    ghost view = { λ p. record {
      version = p.version;
      sweep = p.sweep;
      quantum = p.quantum;
      ram = p.ram;
      size = p.size;
      trusted = p.trusted;
      heap = p.heap;
      name = string_bytes p.name;
      devices = p.devices;
      shared = p.shared.items;
      sealed = p.sealed.items;
      compartments = p.compartments.items;
      libraries = p.libraries.items;
      threads = p.threads.items;
    } };
}
