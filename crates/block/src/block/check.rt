// The checks of a parameter block.
ghost use Rattle.std.specs.Prelude.{◌≡◌, ◌+◌, ◌<◌, length, Ok, Err, if◌then◌else◌, MatchOption};
ghost use Rattle.refusal.specs.Refusals.{refusal_at};
ghost use Rattle.block.specs.Accepted.{setups};
ghost use Rattle.block.specs.Checks.{checked, is_address};
ghost use Rattle.block.specs.Fields.{field as field_at, good_flag1, good_flag2, rank_of, width_of};
ghost use Rattle.block.specs.Order.{ChecksInOrder};

use super::{CheckedBlock, RawBlock};
use crate::par::par_crc;
use crate::setup::{Own, Setup};
use refusal::{Reason, Refusal};
use signature::SignatureKind;
use std::marker::PhantomData;

impl RawBlock<'_> {
    // Checks a block against what the end is.
    pub fn check<K: SignatureKind>(self, own: Own) -> Result<CheckedBlock<K>, Refusal>
        ensures { setups result ≡ checked K.SignatureKind.model.width K.SignatureKind.limit self.entry.octets.now own }
    {
        let octets = self.octets;
        ensure(octets.len() == 10, Reason::BlockLength, 0)?;
        let crc = field(octets, 8);
        ensure(crc == par_crc(&octets[0..8]), Reason::BlockSignature, 0)?;
        ensure(flag1_allowed(octets[0]), Reason::BlockFlags, 0)?;
        ensure(flag2_allowed(octets[1]), Reason::BlockFlags, 1)?;
        let destination = field(octets, 4);
        ensure(is_address(field(octets, 2)), Reason::SourceAddress, 0)?;
        ensure(is_address(destination), Reason::DestinationAddress, 0)?;
        ensure(destination == own.address, Reason::OtherDestination, 0)?;
        let watch = field(octets, 6);
        ensure(watch > 0, Reason::NoWatchTime, 0)?;
        let asked = sil_rank(octets[0]);
        ensure(
            asked.is_none_or(|rank| rank <= own.rank),
            Reason::SilRank,
            0,
        )?;
        ensure(
            crc_width(octets[0]) == Some(K::width()),
            Reason::WidthOrLimit,
            0,
        )?;
        ensure(own.out_len <= K::limit(), Reason::WidthOrLimit, 0)?;
        ensure(own.in_len <= K::limit(), Reason::WidthOrLimit, 0)?;
        let setup = Setup {
            crc,
            watch,
            out_len: own.out_len as u8,
            in_len: own.in_len as u8,
        };
        Ok(CheckedBlock {
            setup,
            kind: PhantomData,
        })
    }
}

// Goes on if a condition holds, and else turns the block down.
fn ensure(holds: bool, reason: Reason, found: usize) -> Result<(), Refusal>
    ensures { result ≡ if holds then Ok tt else Err (refusal_at reason found) }
{
    if holds {
        Ok(())
    } else {
        Err(Refusal::at(reason, found))
    }
}

impl<K: SignatureKind> CheckedBlock<K> {
    // What an end takes from the block, which is used up.
    pub fn into_setup(self) -> Setup
        ensures { result ≡ self.setup }
    {
        self.setup
    }
}

// The conditions are checked in the order of their numbers, so that a refusal names the lowest
// one that fails, and an accepted block fails none.
pub fn checks_in_order()
    ensures { ChecksInOrder }
{}

// A field of two octets.
fn field(block: &[u8], at: usize) -> u16
    requires { at + 1 < length block.now }
    ensures { result ≡ field_at block.now at }
{
    u16::from_be_bytes([block[at], block[at + 1]])
}

// Whether F_Check_iPar and the reserved bits of the first flag octet are 0.
fn flag1_allowed(flags: u8) -> bool
    ensures { result ≡ good_flag1 flags }
{
    (flags >> 1) % 2 == 0 && flags >> 6 == 0
}

// Whether the second flag octet has F_Par_Version 01, F_Block_ID 000 and reserved bits 0.
fn flag2_allowed(flags: u8) -> bool
    ensures { result ≡ good_flag2 flags }
{
    flags % 8 == 0 && (flags >> 3) % 8 == 0 && flags >> 6 == 1
}

// The rank that F_SIL asks for, if it asks for one.
fn sil_rank(flags: u8) -> Option<u8>
    ensures { MatchOption result (rank_of flags ≡ 0) (λ rank. rank ≡ rank_of flags) }
{
    match (flags >> 2) % 4 {
        0 => Some(1),
        1 => Some(2),
        2 => Some(3),
        _ => None,
    }
}

// The octets of a signature by F_CRC_Length, if it names a length.
fn crc_width(flags: u8) -> Option<usize>
    ensures { MatchOption result (width_of flags ≡ 0) (λ width. (width ≡ width_of flags) × (0 < width)) }
{
    match (flags >> 4) % 4 {
        0 => Some(3),
        1 => Some(2),
        2 => Some(4),
        _ => None,
    }
}

// Whether an address is neither 0 nor FFFFh.
fn is_address(address: u16) -> bool
    ensures { result ≡ is_address address }
{
    address != 0 && address != 0xffff
}
