//! The planes together, as memory.

ghost use Rattle.std.specs.Prelude.{◌≡◌, ◌/◌, ◌%◌, replicate, IfOk};
ghost use Rattle.def_memory.specs.Granules.{nothing};
ghost use Rattle.ct_planes.specs.Lent.{bytes_of, tag_words_of, mark_words_of};

use crate::bits::Bits;
use crate::bytes::Bytes;
use crate::shadows::Shadows;
use ct_mem::Memory;
use def_refusals::NoMemory;
use def_words::Cap;
use std::alloc::Global;
use std::marker::Model;

/// RAM in planes: bytes, a tag bit and a mark bit for each granule of eight, and shadows.
#[derive(Drop)]
pub struct Planes {
    words: Bytes,
    tags: Bits,
    shadows: Shadows,
    marks: Bits,
}

impl Model for Planes {
    ghost use Rattle.std.specs.Prelude.{List};
    ghost use Rattle.def_memory.specs.declared.Granule.{Granule};
    ghost use Rattle.ct_planes.specs.View.{granules_of, Fit};

    ghost Value = { List Granule };

    ghost view = { λ p. granules_of p.words p.tags p.shadows p.marks };

    ghost invariant = { λ p. Fit p.words p.tags p.shadows p.marks };
}

impl Planes {
    /// RAM of this many bytes, all zero, untagged and unmarked. The size is a multiple of 16.
    ///
    /// `NoMemory` where the allocator has no room for the planes.
    pub fn new(alloc: Global, size: u32) -> Result<Planes, NoMemory>
        requires { size % 16 ≡ 0 }
        ensures { IfOk result (λ memory. memory ≡ replicate (size / 8) nothing) }
    {
        let count = (size / 8) as usize;
        let words = Bytes::new(alloc, count)?;
        let tags = Bits::new(alloc, count)?;
        let shadows = Shadows::new(alloc, count)?;
        let marks = Bits::new(alloc, count)?;
        Ok(Planes {
            words,
            tags,
            shadows,
            marks,
        })
    }

    /// The bytes of all granules, in order, lent without copying.
    pub fn bytes(&self) -> &[u8]
        ensures { result.now ≡ bytes_of self.now }
    {
        self.words.bytes()
    }

    /// Bit `i mod 64` of word `i / 64` is set exactly where granule `i` is tagged. Bits past the
    /// last granule are 0, and there are no more words than the granules need. Lent without
    /// copying.
    pub fn tag_words(&self) -> &[u64]
        ensures { result.now ≡ tag_words_of self.now }
    {
        self.tags.words()
    }

    /// The same for the granules that are marked.
    pub fn mark_words(&self) -> &[u64]
        ensures { result.now ≡ mark_words_of self.now }
    {
        self.marks.words()
    }
}

impl Memory for Planes {
    ghost granules = { λ m. m };

    fn size(&self) -> u32 {
        self.words.size()
    }

    fn load(&self, at: u32, width: u32) -> u32 {
        self.words.load(at as usize, width)
    }

    fn store(&mut self, at: u32, width: u32, value: u32) {
        let i = (at / 8) as usize;
        self.words.store(at as usize, width, value);
        self.tags.put(i, false);
        self.shadows.clear(i);
    }

    fn load_cap(&self, at: u32) -> Cap {
        let i = (at / 8) as usize;
        Cap {
            tag: self.tags.get(i),
            word: self.words.word(i),
            shadow: self.shadows.get(i),
        }
    }

    fn store_cap(&mut self, at: u32, cap: Cap) {
        let i = (at / 8) as usize;
        self.words.put_word(i, cap.word);
        self.tags.put(i, cap.tag);
        self.shadows.put(i, cap.shadow);
    }

    fn zero(&mut self, from: u32, to: u32) {
        let (first, end) = ((from / 8) as usize, (to / 8) as usize);
        self.words.zero(first, end);
        self.tags.fill(first, end, false);
        self.shadows.zero(first, end);
    }

    fn mark(&mut self, from: u32, to: u32, on: bool) {
        self.marks.fill((from / 8) as usize, (to / 8) as usize, on);
    }

    fn marked(&self, at: u32) -> bool {
        self.marks.get((at / 8) as usize)
    }

    fn next_tagged_below(&self, from: u32, to: u32) -> Option<u32> {
        match self
            .tags
            .next((from as usize + 7) / 8, (to as usize + 7) / 8)
        {
            Some(i) => Some(8 * i as u32),
            None => None,
        }
    }
}
