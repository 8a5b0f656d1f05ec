// Writing to the front of a buffer. What is behind the bytes written stays as it was. A length that is known to fit is narrowed
// by `as`, here and in `writing`, since no From narrows.
ghost use Rattle.std.specs.Prelude.{◌≡◌, ◌+◌, ◌≤◌, length};
ghost use Rattle.device.specs.Bytes.{four};
ghost use Rattle.device.specs.Format.{body_size, sub_size};
ghost use Rattle.section.specs.Layout.{over, identity};
ghost use Rattle.section.specs.Writer.{HasRoom, with_bytes};

use crate::names::NamesBefore;
use device::{Device, Movable, numbers};

// How many bytes a number has.
const NUMBER_SIZE: usize = 4;

// Answers how many bytes it wrote. A save counts for itself, since it lends the tree what is left of its buffer: of a method of
// `Writer` that answers a borrow of the rest, the check proves no clause on what the buffer is afterwards.
pub fn put(bytes: &[u8], out: &mut [u8]) -> usize
    requires { length bytes.now ≤ length out.old }
    ensures count { result ≡ length bytes.now }
    ensures buffer { out.new ≡ over bytes.now out.old }
{
    let n = bytes.len();
    out[0..n].copy_from_slice(bytes);
    n
}

// Writes a number as four bytes, the highest first.
pub fn put_number(number: u32, out: &mut [u8]) -> usize
    requires { 4 ≤ length out.old }
    ensures count { result ≡ 4 }
    ensures buffer { out.new ≡ over (four number) out.old }
{
    numbers::put_number(&mut out[0..NUMBER_SIZE], number);
    NUMBER_SIZE
}

// Writes the number of the leaf after these names.
pub fn put_leaf_number(before: &NamesBefore, out: &mut [u8]) -> usize
    requires { 4 ≤ length out.old }
    ensures count { result ≡ 4 }
    ensures buffer { out.new ≡ over (four (length before.now)) out.old }
{
    put_number(before.number(), out)
}

// Writes the identity of the leaf after these names.
#[tactic(auto, using(crate::proofs::Writers::writes, crate::proofs::Sizes::lengths))]
pub fn put_identity(before: &NamesBefore, name: &[u8], out: &mut [u8]) -> usize
    requires name { length name.now ≤ 16 }
    requires room { 9 + length name.now ≤ length out.old }
    ensures count { result ≡ length (identity before.now name.now) }
    ensures size { result ≡ 9 + length name.now }
    ensures buffer { out.new ≡ over (identity before.now name.now) out.old }
{
    let mut writer = Writer::new(out);
    writer.put_identity(before, name);
    writer.written()
}

// A buffer that is written from its front on.
#[derive(Drop)]
pub(crate) struct Writer<'a> {
    out: &'a mut [u8],
    written: usize,
}

#[tactic(auto, unfolding(crate::specs::Writer::with_bytes))]
impl<'a> Writer<'a> {
    pub(crate) fn new(out: &'a mut [u8]) -> Writer<'a>
        ensures { result ≡ record { out = out.entry; written = 0 } }
    {
        Writer { out, written: 0 }
    }

    // How many bytes were written.
    pub(crate) fn written(&self) -> usize
        ensures { result ≡ self.now.written }
    {
        self.written
    }

    pub(crate) fn put(&mut self, bytes: &[u8])
        requires { HasRoom self.old (length bytes.now) }
        ensures { self.new ≡ with_bytes self.old bytes.now }
    {
        self.written += put(bytes, &mut self.out[self.written..]);
    }

    // Writes a number as four bytes.
    pub(crate) fn put_number(&mut self, number: u32)
        requires { HasRoom self.old 4 }
        ensures { self.new ≡ with_bytes self.old (four number) }
    {
        self.written += put_number(number, &mut self.out[self.written..]);
    }

    // Writes the number of the leaf after these names.
    pub(crate) fn put_leaf_number(&mut self, before: &NamesBefore)
        requires { HasRoom self.old 4 }
        ensures { self.new ≡ with_bytes self.old (four (length before.now)) }
    {
        self.written += put_leaf_number(before, &mut self.out[self.written..]);
    }

    // Writes the body of a version. It and the next differ in what they ask of the device alone; a function that takes that as a
    // closure would need the clauses of both at the closures.
    pub(crate) fn put_body<D: Movable>(&mut self, device: &D, version: u32)
        requires { HasRoom self.old (body_size D.Movable.format version) }
        ensures { self.new ≡ with_bytes self.old (D.Movable.format.body version (D.Device.meaning device.now)) }
    {
        let end = self.written + D::body_size(version);
        device.write_body(version, &mut self.out[self.written..end]);
        self.written = end;
    }

    // Writes the body of a subsection.
    pub(crate) fn put_subsection_body<D: Movable>(&mut self, device: &D, subsection: D::Subsection)
        requires { HasRoom self.old (sub_size D.Movable.format (D.Movable.numbered subsection)) }
        ensures { self.new ≡ with_bytes self.old (D.Movable.format.sub (D.Movable.numbered subsection) (D.Device.meaning device.now)) }
    {
        let end = self.written + D::subsection_size(subsection);
        device.write_subsection(subsection, &mut self.out[self.written..end]);
        self.written = end;
    }

    // Writes the identity of the leaf after these names.
    #[tactic(auto, using(crate::proofs::Writers::writes))]
    pub(crate) fn put_identity(&mut self, before: &NamesBefore, name: &[u8])
        requires name { length name.now ≤ 16 }
        requires room { HasRoom self.old (9 + length name.now) }
        ensures { self.new ≡ with_bytes self.old (identity before.now name.now) }
    {
        self.put_leaf_number(before);
        self.put(&[name.len() as u8]);
        self.put(name);
        self.put_number(before.instance(name));
    }
}
