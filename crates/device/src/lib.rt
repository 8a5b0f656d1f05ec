// What every device offers to its guest, and what one owes that can be moved.
#![tactic(auto)]

pub mod adoption;
pub mod bits;
pub mod bytes;
pub mod numbers;

ghost use Rattle.std.specs.Prelude.{◌≡◌, ℕ, ◌<◌, ◌≤◌, true, length, map};
ghost use Rattle.std.specs.List.{range_with_len};
ghost use Rattle.std.specs.Result.{result_err};
ghost use Rattle.device.specs.Kind.{Kind, Closed};
ghost use Rattle.device.specs.Format.{Format, count, title as title_of, body_size, sub_size, needs as needs_in, off_default, taken, is_needed};
ghost use Rattle.device.specs.Obligations.{Obligations};
ghost use Rattle.device.specs.Table.{Table, section_of, adopting};

use adoption::NotAdopted;

// A device as its guest sees it: each call answers, and leaves the state, that the kind's rules give.
pub trait Device {
    // The states that a device of this kind can be in. Only meanings use it; no value of it need be made.
    type State;

    // The rules of the kind.
    ghost kind: { Kind Self.State };

    // The state that a device is in.
    ghost meaning: { Self → Self.State };

    // Does nothing: it promises that the calls leave a sound state sound. It is no law, since of its own
    // crate a law's proof may cite only specs/, which holds what a reader must believe.
    fn closed()
        ensures { Closed kind };

    // The letters of the kind's name.
    fn name() -> &'static [u8]
        ensures { result.now ≡ kind.name };

    // The number of offsets.
    fn width() -> u32
        ensures { result ≡ kind.width };

    // Whether bytes can be fed to the device.
    fn has_input() -> bool
        ensures { result ≡ kind.input };

    // Takes the fresh state.
    fn reset(&mut self)
        ensures { meaning self.new ≡ kind.fresh };

    fn read(&mut self, offset: u32) -> u8
        requires { offset < kind.width }
        ensures { (result, meaning self.new) ≡ kind.read (meaning self.old) offset };

    // Answers the byte that leaves the panel, or none.
    fn write(&mut self, offset: u32, byte: u8) -> Option<u8>
        requires { offset < kind.width }
        ensures { (result, meaning self.new) ≡ kind.write (meaning self.old) offset byte };

    // Brings a byte from outside.
    fn feed(&mut self, byte: u8)
        requires { kind.input ≡ true }
        ensures { meaning self.new ≡ kind.feed (meaning self.old) byte };

    // Passes clock ticks.
    fn tick(&mut self, ticks: u16)
        requires { 1 ≤ ticks }
        ensures { meaning self.new ≡ kind.tick (meaning self.old) ticks };

    // Whether the device asks for an interrupt.
    fn line(&self) -> bool
        ensures { result ≡ kind.line (meaning self.now) };

    // A device has 1 to 256 offsets.
    ghost span: { (1 ≤ kind.width) × (kind.width ≤ 256) };

    // Every device is in a sound state.
    ghost sound: { (device : Self) → kind.Sound (meaning device) };
}

// A device whose state can travel. It is first of all a device: what it writes and adopts is the state that it is in.
pub trait Movable: Device {
    // The subsections of the kind. A kind without any has a type with values all the same, since a function that takes a value
    // of an empty type could not be called, and the check refuses it.
    type Subsection: Copy + 'static;

    // How its states travel.
    ghost format: { Format Self.State };

    // The number of a subsection in the format's table.
    ghost numbered: { Self.Subsection → ℕ };

    // Does nothing: it promises that the kind meets its obligations. It is no law by a rule of the project: the obligations
    // stand in what a movable device's functions promise.
    fn lawful()
        ensures { Obligations Self.Device.kind format };

    // The version that an edition writes. An edition is any number here and below: a type of the editions that there are would
    // ask more of callers.
    fn writes(edition: u32) -> u32
        ensures { result ≡ (format.edition edition).writes };

    // Whether an edition takes a version.
    fn takes(edition: u32, version: u32) -> bool
        ensures { result ≡ taken format edition version };

    // The subsections in the order of their numbers.
    fn subsections() -> &'static [Self::Subsection]
        ensures { map numbered result.now ≡ range_with_len 0 (count format) };

    // The number of a subsection.
    fn number(subsection: Self::Subsection) -> u8
        ensures { result ≡ numbered subsection };

    // Whether an edition knows a subsection.
    fn knows(edition: u32, subsection: Self::Subsection) -> bool
        ensures { result ≡ (format.edition edition).knows (numbered subsection) };

    // The name of a subsection.
    fn title(subsection: Self::Subsection) -> &'static [u8]
        ensures { result.now ≡ title_of format (numbered subsection) };

    // How many bytes a body has.
    fn body_size(version: u32) -> usize
        ensures { result ≡ body_size format version };

    // How many bytes a subsection has.
    fn subsection_size(subsection: Self::Subsection) -> usize
        ensures { result ≡ sub_size format (numbered subsection) };

    // Whether the state needs a subsection: a test that misses a state is not proved.
    fn needs(&self, subsection: Self::Subsection) -> bool
        ensures { result ≡ needs_in format (Self.Device.meaning self.now) (numbered subsection) };

    // The first field absent from a version that is off its default.
    fn off_default(&self, version: u32) -> Option<u16>
        ensures { result ≡ off_default format version (Self.Device.meaning self.now) };

    // Writes the body of a version over `out`.
    fn write_body(&self, version: u32, out: &mut [u8])
        requires { length out.old ≡ body_size format version }
        ensures { out.new ≡ format.body version (Self.Device.meaning self.now) };

    // Writes a subsection over `out`.
    fn write_subsection(&self, subsection: Self::Subsection, out: &mut [u8])
        requires { length out.old ≡ sub_size format (numbered subsection) }
        ensures { out.new ≡ format.sub (numbered subsection) (Self.Device.meaning self.now) };

    // Passes a body, or answers its first refused field. Here and below a body stays a version and bytes with a `requires`: in a struct
    // `Body<Self>` that keeps its size, the check asks for each `impl` to be proved by hand.
    fn check_body(version: u32, body: &[u8]) -> Result<(), u16>
        requires { length body.now ≡ body_size format version }
        ensures { result_err result ≡ format.check version body.now };

    // Passes a subsection beside a body, or answers its first refused field.
    fn check_subsection(
        version: u32,
        body: &[u8],
        subsection: Self::Subsection,
        own: &[u8],
    ) -> Result<(), u16>
        requires body_size { length body.now ≡ body_size format version }
        requires size { length own.now ≡ sub_size format (numbered subsection) }
        ensures { result_err result ≡ format.check_sub version body.now (numbered subsection) own.now };

    // Whether a subsection beside a body is off its default.
    fn is_needed(version: u32, body: &[u8], subsection: Self::Subsection, own: &[u8]) -> bool
        requires body_size { length body.now ≡ body_size format version }
        requires size { length own.now ≡ sub_size format (numbered subsection) }
        ensures { result ≡ is_needed format version body.now (numbered subsection) own.now };

    // Takes on the state that a body and its subsections give, or fails and stays as it was. Each place of the table has the
    // subsection of that number, if the section has it.
    fn adopt(
        &mut self,
        version: u32,
        body: &[u8],
        subsections: &[Option<&[u8]>],
    ) -> Result<(), NotAdopted>
        requires body_size { length body.now ≡ body_size format version }
        requires table { Table format subsections.now }
        ensures { (result, Self.Device.meaning self.new) ≡ adopting (format.adopt (section_of version body.now subsections.now)) (Self.Device.meaning self.old) };

    // Where there are subsections, the number of one is its place in the table.
    ghost known: { (subsection : Self.Subsection) → 1 ≤ count format → numbered subsection < count format };
}
