// The calls that can be made on a pair.

// Offers and readings write into a buffer that is lent with the call. `Press` hands the host what the button yielded
// since the last one, or tells it that there is none.
// Data and no closures, since lists of them are what the safety statement speaks of.
#[derive(Clone, Copy)]
pub enum Call<'a> {
    HostOffer { values: &'a [u8], wish: u8 },
    ToDevice(&'a [u8]),
    DeviceOffer { values: &'a [u8], flags: u8 },
    ToHost(&'a [u8]),
    HostTicks(u16),
    DeviceTicks(u16),
    Button(u8),
    Press,
    HostRead,
    DeviceRead,
}
