//! Places put at the end of a text.

ghost use Rattle.std.specs.Prelude.{◌≡◌, ◌%◌, ◌++◌, OnOk};
ghost use Rattle.std.specs.List.{flat_map};
ghost use Rattle.design_circuit.specs.Filling.{IsPlace};
ghost use Rattle.report_listing.specs.Places as spec;
ghost use Rattle.wave_proved.specs.Contents.{job};

use base_lists::{Memory, put, put_number};
use design_circuit::{Place, Stim};
use std::alloc::Global;
use wave_proved::Wave;

// bit = "#" time " " name
pub fn put_bit(
    alloc: Global,
    text: &mut Vec<u8>,
    wave: &Wave<'_>,
    place: Place,
) -> Result<(), Memory>
    requires { IsPlace (job wave.now) place }
    ensures { OnOk result (text.new.items ≡ text.old.items ++ spec.bit_text wave.now place) }
{
    let name = wave.design().written_name(alloc, place.net)?;
    put(text, b"#")?;
    put_number(text, time_of(wave, place))?;
    put(text, b" ")?;
    put(text, name.as_slice())
}

// place = name " #" time " round " number
pub fn put_place(
    alloc: Global,
    text: &mut Vec<u8>,
    wave: &Wave<'_>,
    place: Place,
) -> Result<(), Memory>
    requires { IsPlace (job wave.now) place }
    ensures { OnOk result (text.new.items ≡ text.old.items ++ spec.place_text wave.now place) }
{
    let name = wave.design().written_name(alloc, place.net)?;
    put(text, name.as_slice())?;
    put(text, b" #")?;
    put_number(text, time_of(wave, place))?;
    put(text, b" round ")?;
    put_number(text, u64::from(round_of(wave, place)))
}

// timed = "#" time " round " number " " name
#[tactic(auto, unfolding(crate::specs::Places::timed_text))]
pub fn put_timed(
    alloc: Global,
    text: &mut Vec<u8>,
    wave: &Wave<'_>,
    place: Place,
) -> Result<(), Memory>
    requires { IsPlace (job wave.now) place }
    ensures { OnOk result (text.new.items ≡ text.old.items ++ spec.timed_text wave.now place) }
{
    let name = wave.design().written_name(alloc, place.net)?;
    put(text, b"#")?;
    put_number(text, time_of(wave, place))?;
    put(text, b" round ")?;
    put_number(text, u64::from(round_of(wave, place)))?;
    put(text, b" ")?;
    put(text, name.as_slice())
}

// filling = { " " step " " net }
pub fn put_filling(text: &mut Vec<u8>, filling: &[Place]) -> Result<(), Memory>
    ensures { OnOk result (text.new.items ≡ text.old.items ++ flat_map spec.listed_text filling.now) }
{
    'places: for place in filling {
        put_listed(text, *place)?;
    }
    Ok(())
}

fn put_listed(text: &mut Vec<u8>, place: Place) -> Result<(), Memory>
    ensures { OnOk result (text.new.items ≡ text.old.items ++ spec.listed_text place) }
{
    put(text, b" ")?;
    put_number(text, u64::from(place.step))?;
    put(text, b" ")?;
    put_number(text, u64::from(place.net))
}

/// The time of a place's moment.
fn time_of(wave: &Wave<'_>, place: Place) -> u64
    requires { IsPlace (job wave.now) place }
    ensures { result ≡ spec.time_of wave.now place.step }
{
    let stim = wave.stim();
    let moment = place.step / stim.rounds;
    stim.times.as_slice()[moment as usize]
}

/// The round of a place within its moment.
fn round_of(wave: &Wave<'_>, place: Place) -> u32
    ensures { result ≡ place.step % wave.now.stim.rounds }
{
    place.step % wave.stim().rounds
}
