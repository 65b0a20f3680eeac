// A step as it is written: four numbers.
ghost use Rattle.std.specs.Prelude.{◌≡◌, [], ◌∷◌, ◌*◌};
ghost use Rattle.std.proofs.lemmas.List.Edits.{sets};
ghost use Rattle.plan.specs.inside.Writing.{StepFits, InstructionFits, numbers_of};

use walk::plan::Instruction;

// Writes step i of a buffer: its kind, and the three numbers that the kind gives their meaning.
pub fn put_step(i: usize, kind: usize, x: usize, y: usize, z: usize, steps: &mut [u16])
    requires { StepFits i kind x y z steps.old }
    ensures { steps.new ≡ sets steps.old (4 * i) (kind ∷ x ∷ y ∷ z ∷ []) }
{
    let at = 4 * i;
    steps[at] = kind as u16;
    steps[at + 1] = x as u16;
    steps[at + 2] = y as u16;
    steps[at + 3] = z as u16;
}

// Writes an instruction as step i of a buffer.
pub fn put_instruction(i: usize, instruction: Instruction, steps: &mut [u16])
    requires { InstructionFits i instruction steps.old }
    ensures { steps.new ≡ sets steps.old (4 * i) (numbers_of instruction) }
{
    match instruction {
        Instruction::Make { n, a, b } => put_step(i, 1, n, a, b, steps),
        Instruction::Load(list) => put_step(i, 2, list, 0, 0, steps),
        Instruction::Combine { plain, power } => {
            put_step(i, if plain { 4 } else { 3 }, power, 0, 0, steps)
        }
    }
}
