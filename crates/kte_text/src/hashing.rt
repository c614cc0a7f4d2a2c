//! Computing the digest of a file, of given bytes or of what a text is saved as.
ghost use Rattle.std.specs.Prelude.{◌≡◌, ◌+◌, ◌<◌, ◌≤◌, ℕ, List, ◌++◌, length};
ghost use Rattle.sha1.specs.Sha1.{Holds, sha1};
ghost use Rattle.kte_text.specs.Units.{IsLine, IsBoundary, utf8_of};
ghost use Rattle.kte_text.specs.Saving.{bytes_of};
ghost use Rattle.kte_text.specs.Digests.{blob_head, digest_of};

use crate::digests::Digest;
use crate::line::splits;
use crate::lines::Lines;
use crate::loading::Eol;
use crate::saving::{end_bytes, mark_bytes, saved_len};
use crate::utf8::{utf8_len, write_utf8};
use itoa::Buffer;
use sha1::Sha1;

/// Returns the digest of a file. Takes no memory.
pub fn digest(bytes: &[u8]) -> Digest
    ensures { result.0 ≡ digest_of bytes.now }
{
    let mut hasher = headed(bytes.len() as u64);
    hasher.update(bytes);
    Digest(hasher.finalize())
}

/// Returns the digest of what `save` would return, without making it. Takes no memory.
pub fn digest_of_saved<L: Lines>(lines: &L, eol: Eol, bom: bool) -> Digest
    ensures { result.0 ≡ digest_of (bytes_of (L.text lines.now) eol bom) }
{
    let count = lines.lines();
    let first = lines.line(0);
    let mut writer = Writer::new(saved_len(lines, eol, bom));
    writer.put(mark_bytes(first, bom));
    writer.put_line(first);
    for n in 1..count {
        writer.put(end_bytes(eol));
        writer.put_line(lines.line(n));
    }
    writer.finish()
}

// A hasher that has the head of a blob of this length.
fn headed(length: u64) -> Sha1
    ensures { Holds result (blob_head length) }
{
    let mut number = Buffer::new();
    let mut hasher = Sha1::new();
    hasher.update(b"blob ");
    hasher.update(number.format(length).as_bytes());
    hasher.update(&[0]);
    hasher
}

const PIECE_LEN: usize = 8192;

// The most units that are written at once: their bytes fit a piece.
const RUN_LEN: usize = 2048;

// A hasher, and the bytes that it gets next.
#[derive(Drop)]
struct Writer {
    hasher: Sha1,
    piece: [u8; PIECE_LEN],
    filled: usize,
}

impl Writer {
    ghost use Rattle.kte_text.specs.Inside.{Gathers};

    fn new(length: u64) -> Writer
        ensures inside { result.filled ≤ 8192 }
        ensures head { Gathers result (blob_head length) }
    {
        Writer {
            hasher: headed(length),
            piece: [0; PIECE_LEN],
            filled: 0,
        }
    }

    // Adds a few bytes.
    fn put(&mut self, bytes: &[u8])
        requires inside { self.old.filled ≤ 8192 }
        requires short { length bytes.now ≤ 8192 }
        ensures inside { self.new.filled ≤ 8192 }
        ensures added { (m : List ℕ) → Gathers self.old m → Gathers self.new (m ++ bytes.now) }
    {
        self.make_room(bytes.len());
        let start = self.filled;
        let end = start + bytes.len();
        self.piece[start..end].copy_from_slice(bytes);
        self.filled = end;
    }

    // Adds a line in UTF-8.
    fn put_line(&mut self, units: &[u16])
        requires inside { self.old.filled ≤ 8192 }
        requires line { IsLine units.now }
        ensures inside { self.new.filled ≤ 8192 }
        ensures added { (m : List ℕ) → Gathers self.old m
            → Gathers self.new (m ++ utf8_of units.now) }
    {
        let mut next = 0;
        while next < units.len() {
            let end = run_end(units, next);
            self.put_run(&units[next..end]);
            next = end;
        }
    }

    // Adds a line of few units.
    fn put_run(&mut self, units: &[u16])
        requires inside { self.old.filled ≤ 8192 }
        requires line { IsLine units.now }
        requires short { length units.now ≤ 2048 }
        ensures inside { self.new.filled ≤ 8192 }
        ensures added { (m : List ℕ) → Gathers self.old m
            → Gathers self.new (m ++ utf8_of units.now) }
    {
        let length = utf8_len(units);
        self.make_room(length);
        let start = self.filled;
        let end = start + length;
        write_utf8(units, &mut self.piece[start..end]);
        self.filled = end;
    }

    // Leaves room for so many bytes.
    fn make_room(&mut self, length: usize)
        requires inside { self.old.filled ≤ 8192 }
        requires short { length ≤ 8192 }
        ensures room { self.new.filled + length ≤ 8192 }
        ensures same { (m : List ℕ) → Gathers self.old m → Gathers self.new m }
    {
        let filled = self.filled;
        if PIECE_LEN - filled < length {
            self.hasher.update(&self.piece[..filled]);
            self.filled = 0;
        }
    }

    fn finish(self) -> Digest
        requires { self.filled ≤ 8192 }
        ensures { (m : List ℕ) → Gathers self m → result.0 ≡ sha1 m }
    {
        let Writer {
            mut hasher,
            piece,
            filled,
        } = self;
        hasher.update(&piece[..filled]);
        Digest(hasher.finalize())
    }
}

// Where the units that are written next end: no more than fit a piece, and no half of a pair.
fn run_end(units: &[u16], next: usize) -> usize
    requires line { IsLine units.now }
    requires there { next < length units.now }
    requires at { IsBoundary units.now next }
    ensures progress { next < result }
    ensures short { result ≤ next + 2048 }
    ensures boundary { IsBoundary units.now result }
{
    if units.len() - next <= RUN_LEN {
        return units.len();
    }
    let end = next + RUN_LEN;
    if splits(units, end as u64) {
        end - 1
    } else {
        end
    }
}
