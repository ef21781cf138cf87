//! Small designs and stimuli.

ghost use Rattle.std.specs.Prelude.{◌≡◌, [], ◌∷◌, IfOk, length};

use base_lists::{Items, Memory};
use design_circuit::{
    Design, Driver, Levels, Name, NamePart, Net, Order, RegisterRules, StartRule, Stim,
};
use design_inputs::InputsWriter;
use std::alloc::{AllocError, Global};
use std::test::Fail;

pub fn part(alloc: Global, text: &[u8], escaped: bool) -> Result<NamePart, AllocError> {
    Ok(NamePart {
        text: Items::from_vec(text.to_vec(alloc)?),
        escaped,
    })
}

/// A net of an empty name.
pub fn net(alloc: Global, driver: Driver) -> Net
    ensures { result.driver ≡ driver }
{
    Net {
        path: Name {
            parts: Items::from_vec(Vec::new(alloc)),
            bit: None,
        },
        driver,
    }
}

/// A design of one net, which nothing drives.
pub fn one_net(alloc: Global, parts: Vec<NamePart>, bit: Option<u32>) -> Result<Design, AllocError>
    ensures { IfOk result (λ design. length design.nets ≡ 1) }
{
    let mut nets = Vec::new(alloc);
    nets.push(Net {
        path: Name {
            parts: Items::from_vec(parts),
            bit,
        },
        driver: Driver::Undriven,
    })?;
    Ok(Design {
        nets: Items::from_vec(nets),
        udps: Items::from_vec(Vec::new(alloc)),
    })
}

/// The second net before the first.
#[tactic(auto, using(crate::proofs::SwappedOrder::swapped_ordered))]
pub fn swapped(alloc: Global) -> Result<Order, Memory>
    ensures { IfOk result (λ order. order ≡ 1 ∷ 0 ∷ []) }
{
    let nets = [1, 0].to_vec(alloc)?;
    Order::new(alloc, nets)
}

/// Times 0 and 10 of two rounds each, without inputs.
pub fn two_moments(alloc: Global) -> Result<Stim, Fail>
    ensures times { IfOk result (λ stim. length stim.times ≡ 2) }
    ensures rounds { IfOk result (λ stim. stim.rounds ≡ 2) }
{
    let times = [0, 10].to_vec(alloc)?;
    let mut inputs = InputsWriter::new(alloc, 0)?;
    inputs.next_moment()?;
    let inputs = inputs.finish(alloc)?;
    Ok(Stim {
        times: Items::from_vec(times),
        rounds: 2,
        inputs,
        rules: RegisterRules {
            start: StartRule::Cold,
            levels: Levels::Change,
        },
        starts: Items::from_vec(Vec::new(alloc)),
    })
}
