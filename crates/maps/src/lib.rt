// The two published address maps: an address's region, and the address of its shadow byte.
#![tactic(auto)]

ghost use Rattle.std.specs.Prelude.{◌^◌, ◌<◌, ◌≡◌};
ghost use Rattle.rules.specs.Answers.{map_status};
ghost use Rattle.rules.specs.Maps.{map32, map64, shadow_address, region, region_number, map_answer, map_shadow};
ghost use Rattle.rules.specs.Maps.{mapped, map_call};

use rules::limits::GRANULE;
use rules::{Map, MapAnswer, MapRefusal, Mapped, Region};

// The printed table's 32-bit column.
const COLUMN32: Map = Map {
    offset: 0x2000_0000,
    low_mem: 0x1fff_ffff,
    low_shadow: 0x23ff_ffff,
    shadow_gap: 0x27ff_ffff,
    high_shadow: 0x3fff_ffff,
    high_mem: 0xffff_ffff,
};

// The printed table's 64-bit column.
const COLUMN64: Map = Map {
    offset: 0x7fff_8000,
    low_mem: 0x7fff_7fff,
    low_shadow: 0x8fff_6fff,
    shadow_gap: 0x0200_8fff_6fff,
    high_shadow: 0x1000_7fff_7fff,
    high_mem: 0x7fff_ffff_ffff,
};

#[tactic(auto, unfolding(rules::specs::Maps::region))]
fn region_of(map: Map, address: u64) -> Region
    ensures { result ≡ region map address }
{
    if address <= map.low_mem {
        Region::LowMem
    } else if address <= map.low_shadow {
        Region::LowShadow
    } else if address <= map.shadow_gap {
        Region::ShadowGap
    } else if address <= map.high_shadow {
        Region::HighShadow
    } else if address <= map.high_mem {
        Region::HighMem
    } else {
        Region::Nowhere
    }
}

#[tactic(auto, unfolding(rules::specs::Maps::map_answer))]
fn answer_of(found: Region) -> MapAnswer
    ensures { result ≡ map_answer found }
{
    match found {
        Region::Nowhere => Err(MapRefusal::BeyondMap),
        Region::ShadowGap => Err(MapRefusal::InGap),
        _ => Ok(()),
    }
}

// A map's number.
#[tactic(auto, unfolding(rules::specs::Answers::map_status))]
pub fn status_of(answer: MapAnswer) -> u8
    ensures { result ≡ map_status answer }
{
    match answer {
        Ok(()) => 0,
        Err(MapRefusal::BeyondMap) => 31,
        Err(MapRefusal::InGap) => 32,
    }
}

// The region's number, which C is handed: nowhere is a region too, 0.
#[tactic(auto, unfolding(rules::specs::Maps::region_number))]
fn number_of(found: Region) -> u8
    ensures { result ≡ region_number found }
{
    found as u8
}

#[tactic(auto, unfolding(rules::specs::Maps::map_shadow))]
fn shadow_of(found: Region, shadow: u64) -> u64
    ensures { result ≡ map_shadow found shadow }
{
    match found {
        Region::Nowhere | Region::ShadowGap => 0,
        _ => shadow,
    }
}

// What is handed back of an address in the region `found`, whose shadow address is `shadow`.
fn mapped(found: Region, shadow: u64) -> Mapped
    ensures { result ≡ mapped found shadow }
{
    Mapped {
        status: status_of(answer_of(found)),
        region: number_of(found),
        shadow: shadow_of(found, shadow),
    }
}

// The offset leaves room for any address / 8, so the sum does not wrap.
#[tactic(auto, unfolding(rules::specs::Maps::shadow_address))]
fn shadow_address(map: Map, address: u64) -> u64
    requires { map.offset < 2 ^ 63 }
    ensures { result ≡ shadow_address map address }
{
    address / (GRANULE as u64) + map.offset
}

#[tactic(auto, unfolding(rules::specs::Maps::map_call))]
fn through(map: Map, address: u64) -> Mapped
    requires { map.offset < 2 ^ 63 }
    ensures { result ≡ map_call map address }
{
    mapped(region_of(map, address), shadow_address(map, address))
}

pub fn map32(address: u64) -> Mapped
    ensures { result ≡ map_call map32 address }
{
    through(COLUMN32, address)
}

pub fn map64(address: u64) -> Mapped
    ensures { result ≡ map_call map64 address }
{
    through(COLUMN64, address)
}
