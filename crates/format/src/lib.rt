// The check of plants over byte slices, document 01's answers 1 to 3, and the readers of their bytes, of numbers and of
// masks.
// Nothing here trusts a lent byte: each function has an answer for any slice and any number.
#![tactic(auto)]

pub mod arrows;
pub mod plant;
pub mod word;

ghost use Rattle.std.specs.Prelude.{◌≡◌};
ghost use Rattle.refusal.specs.Numbers.{fault_of};
ghost use Rattle.statements.specs.Plants.{plant_fault};

use refusal::Refusal;

// Accepts a plant, or says what is wrong with it: its header, a label or an arrow.
#[tactic(auto, using(crate::proofs::Faults::fault_1, crate::proofs::Faults::fault_2, crate::proofs::Faults::fault_3, crate::proofs::Faults::no_plant_fault))]
pub fn check_plant(plant: &[u8]) -> Result<(), Refusal>
    ensures { fault_of result ≡ plant_fault plant.now }
{
    if !plant::head_ok(plant) {
        return Err(Refusal::Plant);
    }
    if !plant::labels_ok(plant) {
        return Err(Refusal::Label);
    }
    if !plant::arrows_ok(plant) {
        return Err(Refusal::Arrow);
    }
    Ok(())
}
