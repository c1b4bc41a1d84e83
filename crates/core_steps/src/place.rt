ghost use Rattle.std.specs.Prelude.{◌≡◌};
ghost use Rattle.std.specs.Option.{option_copied, option_map};
ghost use Rattle.priml_syntax.specs.Read.{read_code, read_act};
ghost use Rattle.core_steps.specs.Places.{walk, turned, act_code};

use priml_syntax::{Action, Block, TailForm};

/// A turn from a block into a block within it.
#[derive(Clone, Copy, Debug)]
pub(crate) enum Turn {
    /// The block of the bind of this number.
    Bind(usize),
    /// The first branch of the ending.
    First,
    /// The second branch of the ending.
    Second,
}

/// The block within an action.
fn within(action: &Action) -> Option<&Block>
    ensures { option_map read_code (option_copied result) ≡ act_code (read_act action.now) }
{
    match action {
        Action::Spawn(_, block) => Some(block),
        Action::Do(block) => Some(block),
        _ => None,
    }
}

#[tactic(auto, using(crate::proofs::Trees::trees))]
fn within_bind(block: &Block, index: usize) -> Option<&Block>
    ensures { option_map read_code (option_copied result) ≡ turned (Turn.Bind index) (read_code block.now) }
{
    let binds = block.binds.as_slice();
    if index >= binds.len() {
        return None;
    }
    within(&binds[index].action)
}

#[tactic(auto, using(crate::proofs::Trees::trees))]
fn into_block(block: &Block, turn: Turn) -> Option<&Block>
    ensures { option_map read_code (option_copied result) ≡ turned turn (read_code block.now) }
{
    match (turn, &block.tail.form) {
        (Turn::Bind(index), _) => within_bind(block, index),
        (Turn::First, TailForm::If(_, first, _)) => Some(first),
        (Turn::First, TailForm::Case(_, first, _)) => Some(first),
        (Turn::Second, TailForm::If(_, _, second)) => Some(second),
        (Turn::Second, TailForm::Case(_, _, second)) => Some(second),
        (_, TailForm::Ret(_)) => None,
    }
}

/// The block at the end of these turns.
pub(crate) fn find<'a>(root: &'a Block, place: &[Turn]) -> Option<&'a Block>
    ensures { option_map read_code (option_copied result) ≡ walk place.now (read_code root.now) }
{
    let mut block = root;
    for turn in place {
        match into_block(block, *turn) {
            Some(inner) => block = inner,
            None => return None,
        }
    }
    Some(block)
}
