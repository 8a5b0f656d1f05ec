// Why an edition cannot write a device's state.
ghost use Rattle.std.specs.Prelude.{◌≡◌};
ghost use Rattle.device.specs.Format.{unknown};
ghost use Rattle.section.specs.Carrying.{refusal, result_of};

use device::{Device, Movable};
use fault::Fault;

// The first subsection that the state needs and the edition does not know.
fn first_unknown<D: Movable>(device: &D, edition: u32) -> Option<u8>
    ensures { result ≡ unknown D.Movable.format edition (D.Device.meaning device.now) }
{
    D::subsections()
        .iter()
        .find(|subsection| device.needs(**subsection) && !D::knows(edition, **subsection))
        .map(|subsection| D::number(*subsection))
}

// Refuses an edition that does not carry the state of a device, which is this leaf.
pub fn carried<D: Movable>(device: &D, leaf: u8, edition: u32) -> Result<(), Fault>
    ensures { result ≡ result_of (refusal D.Movable.format leaf edition (D.Device.meaning device.now)) }
{
    if let Some(field) = device.off_default(D::writes(edition)) {
        return Err(Fault::FieldNotCarried { leaf, field });
    }
    if let Some(subsection) = first_unknown(device, edition) {
        return Err(Fault::SubsectionNotCarried { leaf, subsection });
    }
    Ok(())
}
