//! Ten thousand games: whatever is done with a link, in whatever order, its answers keep to the rules.
use crate::dice::Dice;
use crate::games::Game;
use crate::judging::{Score, end};
use crate::trouble::Trouble;
use std::alloc::Global;
use std::test::Fail;

const GAMES: u64 = 10_000;

/// Spreads the numbers of the games over all seeds.
const SPREAD: u64 = 0x9e37_79b9_7f4a_7c15;

fn play_to_end(alloc: Global, game: &mut Game, score: &mut Score) -> Result<(), Trouble> {
    let moves = game.dice.below(100);
    game.play(alloc, moves.saturating_add(30))?;
    end(alloc, game, score)
}

fn play(alloc: Global, number: u64, score: &mut Score) -> Result<(), Trouble> {
    let dice = Dice::new(number.wrapping_mul(SPREAD));
    let mut game = Game::new(alloc, dice)?;
    let outcome = play_to_end(alloc, &mut game, score);
    drop(game);
    outcome
}

/// Names the game whose answers break a rule.
fn play_all(alloc: Global, score: &mut Score) -> Result<(), Fail> {
    for number in 1..=GAMES {
        if let Err(trouble) = play(alloc, number, score) {
            return Err((number, trouble).into());
        }
    }
    Ok(())
}

/// The games are not empty: in each a few items are acted on, as a rule, and now and then in a channel's second life.
#[test]
fn answers_keep_to_the_rules(rt: HostRuntime) -> Result<(), Fail> {
    let mut score = Score::new();
    play_all(rt.alloc(), &mut score)?;
    assert!(rt; score.acted > 30_000, "{score:?}");
    assert!(rt; score.acted_later > 3000, "{score:?}");
    assert!(rt; score.open > 5000, "{score:?}");
    Ok(())
}
