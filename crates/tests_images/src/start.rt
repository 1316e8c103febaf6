//! A boot over plain memory. Each word was worked out by hand from docs/use/capabilities.md and
//! docs/use/image.md.

use crate::seen::{count_is, fewer, is, put_made};
use ct_boot::{First, boot, thread_start};
use ct_cap::{Cap, Posture, Shadow};
use ct_entry::{Device, DeviceKind, Devices, Mode};
use ct_image::{Image, ImageFault, accept};
use ct_image_parts::{Code, Compartment, Export, Parts, Sealed, Shared, Slot, Thread, written};
use ct_mem::{Memory, Plain};
use ct_tables::{ExportRow, ImportRow, SlotKind};
use def_refusals::NoMemory;
use std::alloc::{AllocError, Global};
use std::process::Abort;

/// A slot: its kind, its rights, the first number of its row, and its name.
type SlotRow = (SlotKind, u8, u32, &'static str);

/// What a compartment or a library is made of: its name, the bounds of its code, its slots, its one
/// export and that one's name, and its text.
#[derive(Clone, Copy, Drop)]
struct Made {
    name: &'static str,
    base: u32,
    length: u32,
    slots: &'static [SlotRow],
    export: ExportRow,
    export_name: &'static str,
    text: &'static [u8],
}

/// A slot of each kind, and three words of text. Interrupts are disabled in the export, whose code is
/// the second word of the text.
const APP: Made = Made {
    name: "app",
    base: 0x8000_0000,
    length: 80,
    slots: &[
        (SlotKind::Service, 40, 0, "switch"),
        (SlotKind::Device, 49, 0, "uart"),
        (SlotKind::Shared, 59, 0, "ring"),
        (SlotKind::Sealed, 51, 0, "box"),
        (SlotKind::Call, 50, 0, "own"),
        (SlotKind::Library, 43, 0, "lib"),
        (SlotKind::Quota, 50, 64, "q"),
        (SlotKind::Key, 35, 13, "key13"),
    ],
    export: ExportRow {
        offset: 4,
        stack: 64,
        args: 2,
        posture: Mode::Disabled,
        capabilities: false,
        entry: 11,
    },
    export_name: "main",
    text: &[1, 2, 3, 4, 5, 6, 7, 8, 9, 10, 11, 12],
};

/// A library that imports itself.
const LIB: Made = Made {
    name: "lib",
    base: 0x8000_0080,
    length: 16,
    slots: &[(SlotKind::Library, 43, 0, "lib")],
    export: ExportRow {
        offset: 4,
        stack: 0,
        args: 0,
        posture: Mode::Disabled,
        capabilities: true,
        entry: 14,
    },
    export_name: "f",
    text: &[0x21, 0x22, 0x23, 0x24, 0x25, 0x26, 0x27, 0x28],
};

fn slot(alloc: Global, numbers: &SlotRow) -> Result<Slot, AllocError> {
    let (kind, rights, first, name) = *numbers;
    let row = ImportRow {
        kind,
        rights,
        first,
        second: 0,
    };
    let name = String::from_str(alloc, name)?;
    Ok(Slot { row, name })
}

fn export(alloc: Global, made: &Made) -> Result<Export, AllocError> {
    let row = made.export;
    let name = String::from_str(alloc, made.export_name)?;
    Ok(Export { row, name })
}

fn put_code(alloc: Global, code: &mut Code, made: &Made) -> Result<(), AllocError> {
    code.name.push_str(made.name)?;
    for row in made.slots {
        put_made(&mut code.slots, slot(alloc, row))?;
    }
    put_made(&mut code.exports, export(alloc, made))?;
    code.text.extend_from_slice(made.text)
}

fn code(alloc: Global, made: &Made) -> Result<Code, AllocError> {
    let mut code = Code {
        name: String::new(alloc),
        base: made.base,
        length: made.length,
        slots: Vec::new(alloc),
        exports: Vec::new(alloc),
        text: Vec::new(alloc),
    };
    put_code(alloc, &mut code, made)?;
    Ok(code)
}

/// A compartment with nine initial bytes.
fn app(alloc: Global) -> Result<Compartment, AllocError> {
    let initial = Vec::from_slice(alloc, &[1u8, 2, 3, 4, 5, 6, 7, 8, 9])?;
    let code = code(alloc, &APP)?;
    Ok(Compartment {
        code,
        table: 0x8000_0050,
        globals: 0x8000_0070,
        globals_length: 16,
        initial,
    })
}

fn uart(alloc: Global) -> Result<Device, AllocError> {
    Ok(Device {
        name: String::from_str(alloc, "uart0")?,
        kind: DeviceKind::Uart,
        base: 0x1000_0000,
    })
}

fn ring(alloc: Global) -> Result<Shared, AllocError> {
    Ok(Shared {
        name: String::from_str(alloc, "ring")?,
        base: 0x8000_0090,
        length: 16,
    })
}

fn sealed(alloc: Global) -> Result<Sealed, AllocError> {
    let name = String::from_str(alloc, "box")?;
    let bytes = Vec::from_slice(alloc, &[9u8, 8, 7, 6, 5])?;
    Ok(Sealed {
        name,
        base: 0x8000_00a0,
        length: 16,
        seal: 14,
        bytes,
    })
}

/// A thread that enters the first export of the first compartment, by its name and its stack.
fn thread(alloc: Global, name: &str, stack: u32) -> Result<Thread, AllocError> {
    Ok(Thread {
        name: String::from_str(alloc, name)?,
        stack,
        stack_length: 256,
        compartment: 0,
        export: 0,
        priority: 1,
        frames: 2,
    })
}

/// Puts the name and the lists of the shelf.
fn put_lists(alloc: Global, parts: &mut Parts) -> Result<(), AllocError> {
    parts.name.push_str("shelf")?;
    put_made(&mut parts.devices.rows, uart(alloc))?;
    put_made(&mut parts.shared, ring(alloc))?;
    put_made(&mut parts.sealed, sealed(alloc))?;
    put_made(&mut parts.compartments, app(alloc))?;
    put_made(&mut parts.libraries, code(alloc, &LIB))?;
    put_made(&mut parts.threads, thread(alloc, "t", 0x8000_00b0))?;
    put_made(&mut parts.threads, thread(alloc, "u", 0x8000_01b0))
}

/// One compartment, one library, an object of each sort, and two threads.
fn shelf(alloc: Global) -> Result<Parts, AllocError> {
    let mut parts = Parts {
        version: 1,
        sweep: 64,
        quantum: 100,
        ram: 0x8000_0000,
        size: 4096,
        trusted: 0x8000_02b0,
        heap: 0x8000_0500,
        name: String::new(alloc),
        devices: Devices {
            rows: Vec::new(alloc),
        },
        shared: Vec::new(alloc),
        sealed: Vec::new(alloc),
        compartments: Vec::new(alloc),
        libraries: Vec::new(alloc),
        threads: Vec::new(alloc),
    };
    put_lists(alloc, &mut parts)?;
    Ok(parts)
}

/// An untagged word.
fn plain(word: u64) -> Cap {
    Cap {
        tag: false,
        word,
        shadow: Shadow { root: 0, source: 0 },
    }
}

/// What an entry gives.
fn given(root: u32, word: u64) -> Cap {
    Cap {
        tag: true,
        word,
        shadow: Shadow { root, source: 0 },
    }
}

/// What stands in RAM at an offset.
fn expected(at: u32) -> Cap {
    match at {
        // Slots, by their kinds.
        0x000 => given(3, 0x5040_0008_0001_0000),
        0x008 => given(4, 0x6200_0010_1000_0000),
        0x010 => given(5, 0x7601_20a0_8000_0090),
        0x018 => given(6, 0x6781_40b0_8000_00a0),
        0x020 => given(7, 0x6440_c070_8000_0060),
        0x028 => given(8, 0x5681_0090_8000_008c),
        0x030 => given(9, 0x6480_6038_8000_0030),
        0x038 => given(10, 0x4600_1a0e_0000_000d),
        // Text.
        0x040 => plain(0x0807_0605_0403_0201),
        0x048 => plain(0x0000_0000_0c0b_0a09),
        // The export table: code, globals, a row.
        0x050 => given(1, 0x5600_0050_8000_0000),
        0x058 => given(2, 0x7600_e080_8000_0070),
        0x060 => plain(0x0000_0040_0000_0004),
        0x068 => plain(0x0000_000b_0002_0202),
        // Globals.
        0x070 => plain(0x0807_0605_0403_0201),
        0x078 => plain(0x0000_0000_0000_0009),
        // The library's slot and text.
        0x080 => given(13, 0x5681_0090_8000_008c),
        0x088 => plain(0x2827_2625_2423_2221),
        // The sealed object.
        0x0a0 => plain(0x0000_0005_0607_0809),
        // The return sentry.
        0x2b0 => given(0, 0x5140_2018_0001_0010),
        _ => plain(0),
    }
}

/// What stands in register n at the start of the thread of this index.
fn expected_register(thread: u32, n: usize) -> Cap {
    match (thread, n) {
        (_, 1) => given(0, 0x5140_2018_0001_0010),
        (0, 2) => given(15, 0x3e01_61b0_8000_01b0),
        (_, 2) => given(16, 0x3e03_60b0_8000_02b0),
        (_, 3) => given(2, 0x7600_e080_8000_0070),
        _ => plain(0),
    }
}

/// An image booted into memory of its size.
fn booted(alloc: Global, image: &Image) -> Result<Plain, NoMemory> {
    let parts = image.parts();
    let mut mem = Plain::new(alloc, parts.size)?;
    boot(image, &mut mem);
    Ok(mem)
}

/// RAM is as it is expected, granule by granule.
fn see_ram(rt: &impl Abort, mem: &Plain) {
    let size = mem.size();
    count_is(rt, size as usize, 4096);
    for k in 0..size / 8 {
        is(rt, k as usize, mem.load_cap(8 * k) == expected(8 * k));
        is(rt, k as usize, !mem.marked(8 * k));
    }
}

/// Whether a thread starts with the registers that are expected of its index.
fn has_registers(thread: u32, first: &First) -> bool {
    let mut same = true;
    for n in 0..16 {
        let register = first.regs[n];
        same = same && register.cap == expected_register(thread, n);
    }
    same
}

/// The thread of an index starts as it is expected.
fn see_first(rt: &impl Abort, thread: u32, first: &First) {
    let row = thread as usize;
    let off = Posture {
        off: true,
        source: 11,
    };
    let pcc = first.pcc;
    is(rt, row, pcc.cap == given(1, 0x5600_0050_8000_0044));
    is(rt, row, has_registers(thread, first));
    is(rt, row, first.posture == off);
    is(rt, row, first.actor == 0);
    is(rt, row, first.export == 11);
}

/// Both threads start as they are expected.
fn see_start(rt: &impl Abort, image: &Image) {
    count_is(rt, image.parts().threads.len(), 2);
    see_first(rt, 0, &thread_start(image, 0));
    see_first(rt, 1, &thread_start(image, 1));
}

/// The image that these bytes spell.
fn image_of(rt: &(impl Abort + AllocGlobal), bytes: &[u8]) -> Result<Image, NoMemory> {
    fewer(rt, bytes.len(), 4096);
    match accept(rt.alloc(), bytes) {
        Ok(image) => Ok(image),
        Err(fault) => {
            is(rt, 0, fault == ImageFault::NoMemory);
            Err(NoMemory)
        }
    }
}

/// The image of the shelf, written and accepted.
pub fn shelf_image(rt: &(impl Abort + AllocGlobal)) -> Result<Image, NoMemory> {
    let parts = shelf(rt.alloc())?;
    let bytes = written(rt.alloc(), &parts);
    drop(parts);
    let bytes = bytes?;
    image_of(rt, bytes.as_slice())
}

fn see_booted(rt: &(impl Abort + AllocGlobal), image: &Image) -> Result<(), NoMemory> {
    let mem = booted(rt.alloc(), image)?;
    see_ram(rt, &mem);
    see_start(rt, image);
    Ok(())
}

/// Every granule of RAM, and how both threads start.
#[test]
fn boots_whole(rt: HostRuntime) -> Result<(), NoMemory> {
    let image = shelf_image(&rt)?;
    let seen = see_booted(&rt, &image);
    drop(image);
    seen
}
