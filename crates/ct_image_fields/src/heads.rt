//! What stands before the lists of a part, with their counts.

/// Of the whole image, how many members each list has.
#[derive(Clone, Copy, Drop)]
pub(crate) struct Counts {
    pub devices: u32,
    pub shared: u32,
    pub sealed: u32,
    pub compartments: u32,
    pub libraries: u32,
    pub threads: u32,
}

/// Of the whole image, the numbers after these: the quantum, RAM's base and size, and the bases of
/// the trusted region and of the heap.
#[derive(Clone, Copy, Drop)]
pub(crate) struct Bases {
    pub quantum: u32,
    pub ram: u32,
    pub size: u32,
    pub trusted: u32,
    pub heap: u32,
}

/// Of a compartment or library: the name, the code's base and length, and how many bytes the text
/// has.
#[derive(Clone, Copy, Drop)]
pub(crate) struct CodeHead {
    pub name: [u8; 32],
    pub base: u32,
    pub length: u32,
    pub text: u32,
}

/// Of a compartment, the numbers after these: the bases of table and globals, the length of the
/// globals, and how many bytes they begin with.
#[derive(Clone, Copy, Drop)]
pub(crate) struct GlobalsHead {
    pub table: u32,
    pub globals: u32,
    pub length: u32,
    pub initial: u32,
}
