use gate_box::Lane;
use journal::Setup;
use parcel::Parcel;
use std::marker::PhantomData;

/// The lane from one core to another, whose items are the parcels of this setup.
#[derive(Clone, Copy)]
pub struct LaneName<'s> {
    /// The setup, which contracts see as its parts.
    pub setup: &'s Setup,
    /// The core that posts.
    pub from: u32,
    /// The core that takes.
    pub to: u32,
}

/// Lanes of parcels: item n of a lane is parcel n from its one core to its other.
pub struct Parcels<'s> {
    of: PhantomData<&'s Setup>,
}

impl<'s> Lane for Parcels<'s> {
    ghost use Rattle.parcel.specs.Parcels.{IsParcel};

    type Name = LaneName<'s>;

    type Item = Parcel;

    ghost is_item = { λ name n parcel. IsParcel name.setup.now name.from name.to n parcel };
}
