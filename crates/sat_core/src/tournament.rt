// Variables with scores in a tournament, whose top is the best of them: a heap's order over a tree that stands still.
ghost use Rattle.std.specs.Prelude.{◌≡◌, ◌≢◌, ℕ, ◌+◌, ◌-◌, ◌*◌, ◌/◌, ◌^◌, ◌<◌, ◌≤◌, ◌↔◌, List, length, drop, map, IfOk, MatchOption, IsTrue, slice_index, slice_set};
ghost use Rattle.sat_core.specs.Tournament.{nobody, player_at, IsWinner, ArePlayed, IsTournament, IsBest, IsOver};

use items::NoMemory;
use std::alloc::Global;
use std::marker::Model;

/// A variable with its score. The better one of two has the greater score, or the same score and the lesser number.
#[derive(Clone, Copy)]
pub(crate) struct Player {
    pub(crate) score: u64,
    pub(crate) var: u32,
}

/// What stands for a variable that doesn't play: every variable is better.
const NOBODY: Player = Player {
    score: 0,
    var: u32::MAX,
};

impl Player {
    fn is(self, other: Player) -> bool
        ensures { IsTrue result ↔ (self ≡ other) }
    {
        self.score == other.score && self.var == other.var
    }
}

/// The better one of two.
fn better(a: Player, b: Player) -> Player
    ensures { IsWinner a b result }
{
    if b.score < a.score {
        a
    } else if a.score < b.score {
        b
    } else if a.var < b.var {
        a
    } else {
        b
    }
}

/// Players by variables. Inside is a tree of n leaves: the nodes n to 2n - 1 are the variables 1 to n, and each node k from
/// 1 to n - 1 has the better one of the nodes 2k and 2k + 1.
#[derive(Drop)]
pub(crate) struct Tournament {
    nodes: Vec<Player>,
    leaves: usize,
}

impl Model for Tournament {
    ghost use Rattle.std.specs.Prelude.{List, drop};
    ghost use Rattle.sat_core.specs.declared.tournament.Player.{Player};
    ghost use Rattle.sat_core.specs.Tournament.{IsTournament};

    ghost Value = { List Player };

    ghost view = { λ a. drop a.leaves a.nodes.items };

    ghost invariant = { λ a. IsTournament a.leaves a.nodes.items };
}

/// Plays at all nodes, the last first.
fn play_all(nodes: &mut [Player], leaves: usize)
    requires size { length nodes.old ≡ 2 * leaves }
    ensures size { length nodes.new ≡ 2 * leaves }
    ensures played { ArePlayed 1 0 leaves nodes.new }
    ensures leaves { drop leaves nodes.new ≡ drop leaves nodes.old }
{
    let mut node = leaves;
    while node > 1 {
        node -= 1;
        nodes[node] = better(nodes[2 * node], nodes[2 * node + 1]);
    }
}

/// Puts a player at a leaf, and plays again from there to the top, or to the first node that stays.
fn replace(nodes: &mut [Player], leaves: usize, place: usize, player: Player)
    requires size { length nodes.old ≡ 2 * leaves }
    requires place { place < leaves }
    requires played { ArePlayed 1 0 leaves nodes.old }
    ensures size { length nodes.new ≡ 2 * leaves }
    ensures played { ArePlayed 1 0 leaves nodes.new }
    ensures leaves { drop leaves nodes.new ≡ slice_set (drop leaves nodes.old) place player }
{
    let mut node = leaves + place;
    nodes[node] = player;
    while node > 1 {
        node /= 2;
        let winner = better(nodes[2 * node], nodes[2 * node + 1]);
        if winner.is(nodes[node]) {
            return;
        }
        nodes[node] = winner;
    }
}

impl Tournament {
    /// All variables play, with these scores.
    pub(crate) fn new(alloc: Global, scores: &[u64]) -> Result<Tournament, NoMemory>
        requires few { length scores.now < 2 ^ 29 }
        ensures size { IfOk result (λ t. length t ≡ length scores.now) }
        ensures own { IfOk result (λ t. (k : ℕ) → k < length scores.now
            → player_at t k ≡ record { score = slice_index scores.now k; var = k + 1 }) }
    {
        let leaves = scores.len();
        let mut nodes = vec![in alloc; NOBODY; leaves]?;
        for place in 0..leaves {
            nodes.push(Player {
                score: scores[place],
                var: place as u32 + 1,
            })?;
        }
        play_all(nodes.as_mut_slice(), leaves);
        Ok(Tournament { nodes, leaves })
    }

    /// The best variable that plays, or none where none does.
    pub(crate) fn best(&self) -> Option<u32>
        ensures { MatchOption result (IsOver self.now) (IsBest self.now) }
    {
        if self.leaves == 0 {
            return None;
        }
        let best = self.nodes[1];
        if best.is(NOBODY) {
            None
        } else {
            Some(best.var)
        }
    }

    /// Whether a variable plays.
    pub(crate) fn plays(&self, var: u32) -> bool
        requires above { 1 ≤ var }
        requires within { var ≤ length self.now }
        ensures { IsTrue result ↔ (player_at self.now (var - 1) ≢ nobody) }
    {
        !self.nodes[self.leaves + (var - 1) as usize].is(NOBODY)
    }

    /// A variable plays with this score from now on.
    pub(crate) fn put(&mut self, var: u32, score: u64)
        requires above { 1 ≤ var }
        requires within { var ≤ length self.old }
        ensures { self.new ≡ slice_set self.old (var - 1) (record { score = score; var = var }) }
    {
        let place = (var - 1) as usize;
        replace(
            self.nodes.as_mut_slice(),
            self.leaves,
            place,
            Player { score, var },
        );
    }

    /// A variable plays no longer.
    pub(crate) fn remove(&mut self, var: u32)
        requires above { 1 ≤ var }
        requires within { var ≤ length self.old }
        ensures { self.new ≡ slice_set self.old (var - 1) nobody }
    {
        let place = (var - 1) as usize;
        replace(self.nodes.as_mut_slice(), self.leaves, place, NOBODY);
    }
}
