//! The account of all channels of a network, whatever carries their packets and in whatever order these come: of
//! each channel, credits, credits under way, freed room and unread words add up to the window; each word that is
//! written and unread is in just one of outbox, packet and slot, under its place modulo the window; and the words
//! read are the first ones written, in order.
#![tactic(auto)]

ghost use Rattle.std.specs.Prelude.{ℕ, ◌<◌};
ghost use Rattle.channel_account.specs.Network.{Rows, Node, Net, Ends, IsLink, Accounted};
ghost use Rattle.channel_account.specs.Moves.{Move, May, after, AreFresh, nothing_under_way, MayArrive, IsReadInOrder};

/// The account of each channel holds as a run begins, and each move keeps it: a write where there is a credit, a
/// read of the next word, a leaf's offer, a packet's arrival, and the way of packets from link to link, which
/// changes no more than their order. Where it holds, what is under way to an end of a channel may arrive there,
/// and the words that were read are the first ones that were written, at most a window of them unread.
pub fn accounts_go_on()
    ensures begins { (window : ℕ) (tables : Rows) (nodes : ℕ → Node) → 0 < window → AreFresh window tables nodes → Accounted window tables (nothing_under_way nodes) }
    ensures keeps { (window : ℕ) (tables : Rows) (n : Net) (m : Move) → Accounted window tables n → May tables n m → Accounted window tables (after n m) }
    ensures arrives { (window : ℕ) (tables : Rows) (n : Net) (e : Ends) → IsLink tables e → Accounted window tables n → MayArrive n e }
    ensures reads { (window : ℕ) (tables : Rows) (n : Net) (e : Ends) → IsLink tables e → Accounted window tables n → IsReadInOrder window n e }
{}
