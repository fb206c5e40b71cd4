//! A network beside the run whose half it is.

ghost use Rattle.std.specs.Prelude.{◌≡◌, ℕ, ◌<◌, ◌^◌, ◌&&◌, Option, List};
ghost use Rattle.net_switch.specs.declared.packet.Row.{Row};
ghost use Rattle.net_tree.specs.Links.{Links};
ghost use Rattle.leaf_port.specs.Leaf.{wrote, took};
ghost use Rattle.pld_base.specs.declared.event.Event.{Event};
ghost use Rattle.pld_base.specs.Channels.{Node};
ghost use Rattle.fabric_run.specs.Plan.{PlanValue};
ghost use Rattle.fabric_run.specs.Trees.{tree_setup};
ghost use Rattle.fabric_run.specs.World as run;
ghost use Rattle.fabric_run.specs.World.{Setup, State};
ghost use Rattle.leaf_net.specs.Net.{NetState, IsAfterRound, net_size, first_net, written, read_at, is_configured, is_quiet};
ghost use Rattle.leaf_net.specs.Shown.{Shows, is_quiet_in};

/// A network shows the run's state from the start on: what changes pages and events alone changes nothing of it, a write
/// and a read at a port change it as they change the state, and so does a round. What it tells of itself is then so of
/// the run.
pub fn nets_show_runs()
    ensures begins { (plan : PlanValue) → Shows (tree_setup plan) (run.start (tree_setup plan)) (first_net plan.depth plan.pattern plan.window plan.before plan.tables) }
    ensures stays { (setup : Setup Links) (st st' : State Links) (n : NetState) → st'.leaves ≡ st.leaves → st'.carrier ≡ st.carrier → st'.entries ≡ st.entries → st'.rounds ≡ st.rounds → st'.packets ≡ st.packets → st'.deflected ≡ st.deflected → Shows setup st n → Shows setup st' n }
    ensures write { (setup : Setup Links) (st : State Links) (n : NetState) (i port word : ℕ) (node : Node) (event : Event) → i < net_size n → Shows setup st n → Shows setup (run.happened st i (wrote (st.leaves i) port word) node event) (written n i port word) }
    ensures read { (setup : Setup Links) (st : State Links) (n : NetState) (i port : ℕ) (node : Node) (event : Event) → i < net_size n → Shows setup st n → Shows setup (run.happened st i (took (st.leaves i) port) node event) (read_at n i port) }
    ensures round { (setup : Setup Links) (st : State Links) (n m : NetState) → Shows setup st n → IsAfterRound n m → Shows setup (run.moved setup st) m }
    ensures configured { (setup : Setup Links) (st : State Links) (n : NetState) → Shows setup st n → is_configured n ≡ run.is_configured setup st }
    ensures quiet { (setup : Setup Links) (st : State Links) (n : NetState) → Shows setup st n → is_quiet n ≡ is_quiet_in setup st }
{}
