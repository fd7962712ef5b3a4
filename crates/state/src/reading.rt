// A state read from its words, and tested in all but its rows.
ghost use Rattle.std.specs.Prelude.{◌≤◌};
ghost use Rattle.std.proofs.Math.ListN as lists;
ghost use Rattle.live_rules.specs.Layout.{state_words};
ghost use Rattle.state.specs.Reading.{HasLists, PartsTold, ReadTold};

use crate::State;

impl State {
    pub fn read(&mut self, words: &[u64]) -> bool
        requires { state_words ≤ lists.length words.now }
        ensures { ReadTold words.now result self.new }
    {
        self.fill(words) && self.parts_sound(words)
    }

    // Whether the tree and the packets are sound.
    fn parts_sound(&self, words: &[u64]) -> bool
        requires room { state_words ≤ lists.length words.now }
        requires filled { HasLists words.now self.now }
        ensures { PartsTold words.now self.now result }
    {
        let n = self.rows_count;
        let m = self.packets;
        if !soundness::tree_sound(n, &self.identifiers, &self.tree) {
            return false;
        }
        let events = 2 * self.accepted - m as u64;
        holding::packets_sound(words, m, n, &self.senders, events)
    }
}
