//! The fields of an image as they stand in its bytes: a name is its 32 bytes, a row its 16, and the
//! zeros that pad a part are a field of their own. Each type is seen as the record of its name in
//! def_image's Raw.

use def_image::RawEntry;
use std::marker::Model;

/// A device.
#[derive(Drop)]
pub struct RawDevice {
    pub name: [u8; 32],
    pub kind: u32,
    pub base: u32,
}

impl Model for RawDevice {
    ghost use Rattle.def_image.specs.Raw.{RawDevice as Fields};

    ghost Value = { Fields };

    ghost view = { λ d. record { name = d.name; kind = d.kind; base = d.base } };
}

/// A shared object.
#[derive(Drop)]
pub struct RawShared {
    pub name: [u8; 32],
    pub base: u32,
    pub length: u32,
}

impl Model for RawShared {
    ghost use Rattle.def_image.specs.Raw.{RawShared as Fields};

    ghost Value = { Fields };

    ghost view = { λ s. record { name = s.name; base = s.base; length = s.length } };
}

/// A sealed object.
#[derive(Drop)]
pub struct RawSealed {
    pub name: [u8; 32],
    pub base: u32,
    pub length: u32,
    pub seal: u32,
    pub bytes: Vec<u8>,
    pub padding: Vec<u8>,
}

impl Model for RawSealed {
    ghost use Rattle.def_image.specs.Raw.{RawSealed as Fields};

    ghost Value = { Fields };

    ghost view = { λ s. record {
      name = s.name;
      base = s.base;
      length = s.length;
      seal = s.seal;
      bytes = s.bytes.items;
      padding = s.padding.items;
    } };
}

/// What compartments and libraries have.
#[derive(Drop)]
pub struct RawCode {
    pub name: [u8; 32],
    pub base: u32,
    pub length: u32,
    pub slots: Vec<RawEntry>,
    pub exports: Vec<RawEntry>,
    pub text: Vec<u8>,
}

impl Model for RawCode {
    ghost use Rattle.def_image.specs.Raw.{RawCode as Fields};

    ghost Value = { Fields };

    ghost view = { λ c. record {
      name = c.name;
      base = c.base;
      length = c.length;
      slots = c.slots.items;
      exports = c.exports.items;
      text = c.text.items;
    } };
}

/// A compartment.
#[derive(Drop)]
pub struct RawCompartment {
    pub code: RawCode,
    pub table: u32,
    pub globals: u32,
    pub globals_length: u32,
    pub initial: Vec<u8>,
    pub padding: Vec<u8>,
}

impl Model for RawCompartment {
    ghost use Rattle.def_image.specs.Raw.{RawCompartment as Fields};

    ghost Value = { Fields };

    ghost view = { λ c. record {
      code = c.code;
      table = c.table;
      globals = c.globals;
      globals_length = c.globals_length;
      initial = c.initial.items;
      padding = c.padding.items;
    } };
}

/// A thread.
#[derive(Drop)]
pub struct RawThread {
    pub name: [u8; 32],
    pub stack: u32,
    pub stack_length: u32,
    pub compartment: u32,
    pub export: u32,
    pub priority: u32,
    pub frames: u32,
}

impl Model for RawThread {
    ghost use Rattle.def_image.specs.Raw.{RawThread as Fields};

    ghost Value = { Fields };

    ghost view = { λ t. record {
      name = t.name;
      stack = t.stack;
      stack_length = t.stack_length;
      compartment = t.compartment;
      export = t.export;
      priority = t.priority;
      frames = t.frames;
    } };
}

/// All fields of an image.
#[derive(Drop)]
pub struct RawImage {
    pub version: u32,
    pub quantum: u32,
    pub ram: u32,
    pub size: u32,
    pub trusted: u32,
    pub heap: u32,
    pub sweep: u32,
    pub name: [u8; 32],
    pub devices: Vec<RawDevice>,
    pub shared: Vec<RawShared>,
    pub sealed: Vec<RawSealed>,
    pub compartments: Vec<RawCompartment>,
    pub libraries: Vec<RawCode>,
    pub threads: Vec<RawThread>,
}

impl Model for RawImage {
    ghost use Rattle.def_image.specs.Raw.{RawImage as Fields};

    ghost Value = { Fields };

    ghost view = { λ r. record {
      version = r.version;
      quantum = r.quantum;
      ram = r.ram;
      size = r.size;
      trusted = r.trusted;
      heap = r.heap;
      sweep = r.sweep;
      name = r.name;
      devices = r.devices.items;
      shared = r.shared.items;
      sealed = r.sealed.items;
      compartments = r.compartments.items;
      libraries = r.libraries.items;
      threads = r.threads.items;
    } };
}
