//! Laws that show that the definitions mean what they should. Each function does nothing: its
//! contract is the law.

ghost use Rattle.std.specs.Prelude.{◌≡◌, ◌≢◌, ◌<◌, ◌≤◌, ℕ, min, true, false, List, [], ◌∷◌, ◌++◌, length, slice_get, Option, Some, None};
ghost use Rattle.std.specs.List.{AllByRecursion};
ghost use Rattle.log_base.specs.ClusterShape.{Shape};
ghost use Rattle.log_base.specs.declared.numbers.Position.{Position};
ghost use Rattle.log_base.specs.declared.numbers.Replica.{Replica};
ghost use Rattle.log_base.specs.declared.numbers.Shard.{Shard};
ghost use Rattle.log_base.specs.declared.numbers.Slot.{Slot};
ghost use Rattle.record_frame.specs.declared.entries.Entry.{Entry};
ghost use Rattle.record_frame.specs.declared.values.Value.{Value};
ghost use Rattle.log_model.specs.Chain.{Live, Frozen, chain_of};
ghost use Rattle.command_frame.specs.declared.items.Item.{Item};
ghost use Rattle.command_frame.specs.declared.items.Item.TheVariants.{Append, Read, Subscribe, Trim, Add, Finalise, Ask};
ghost use Rattle.reply_frame.specs.declared.replies.Reply.{Nothing, Settled, At, Found, Stream', Finalised, Halted, Down, NoSuchShard, NotAdded, PendingRead, Trimmed, Stale, Missing, NothingKept};
ghost use Rattle.command_frame.specs.Items.{IsItem};
ghost use Rattle.command_frame.specs.Streams.{nowhere, room_of_stream};
ghost use Rattle.plain_log.specs.Coherent.{IsCoherentState};
ghost use Rattle.plain_log.specs.Lanes.{NoAppendOf};
ghost use Rattle.plain_log.specs.Log.{LogState, log_of, start, state_after, replies_from, reply_to, knows, standing_of, drawn, after, next_entry, read_in};
ghost use Rattle.plain_log.specs.Halting.{log_with_halt, IsHaltOf};
ghost use Rattle.plain_log.specs.Smallest.{smallest, two_shards};
ghost use Rattle.plain_log.specs.Streams.{collected, stream_from};
ghost use Rattle.plain_log.specs.Taking.{IsTaken};
ghost use Rattle.plain_log.specs.Wishes.{wished, NoTrim, NoFinalise, NoTrimPast};

/// An addition, an append and a read, answered.
pub fn first_answers()
    ensures { log_of smallest 1
        (Add 0 (record { 0 = 0 }) ∷ Append 0 (record { 0 = 0 }) (record { 0 = 0 }) (97 ∷ []) ∷ Read 0 (record { 0 = 0 }) (record { 0 = 0 }) (record { 0 = 0 }) ∷ [])
        ≡ Settled (record { 0 = 0 }) ∷ At (record { 0 = 0 }) ∷ Found (record { 0 = 0 }) (record { client = record { 0 = 0 }; number = record { 0 = 4294967296 }; bytes = 97 ∷ [] }) ∷ [] }
{}

/// A finalised shard takes no more, and what stood before is read.
pub fn finalised_answers()
    ensures { log_of smallest 1
        (Add 0 (record { 0 = 0 }) ∷ Append 0 (record { 0 = 0 }) (record { 0 = 0 }) (97 ∷ []) ∷ Finalise 0 (record { 0 = 0 })
        ∷ Append 0 (record { 0 = 0 }) (record { 0 = 0 }) (98 ∷ []) ∷ Read 0 (record { 0 = 0 }) (record { 0 = 0 }) (record { 0 = 0 }) ∷ [])
        ≡ Settled (record { 0 = 0 }) ∷ At (record { 0 = 0 }) ∷ Settled (record { 0 = 2 }) ∷ Finalised
        ∷ Found (record { 0 = 0 }) (record { client = record { 0 = 0 }; number = record { 0 = 4294967296 }; bytes = 97 ∷ [] }) ∷ [] }
{}

/// A position below a trim is given up, and a shard that was not added is not finalised.
pub fn trimmed_answers()
    ensures { log_of two_shards 1
        (Add 0 (record { 0 = 0 }) ∷ Append 0 (record { 0 = 0 }) (record { 0 = 0 }) (112 ∷ []) ∷ Trim 0 (record { 0 = 1 })
        ∷ Read 0 (record { 0 = 0 }) (record { 0 = 0 }) (record { 0 = 0 }) ∷ Finalise 0 (record { 0 = 1 }) ∷ [])
        ≡ Settled (record { 0 = 0 }) ∷ At (record { 0 = 0 }) ∷ Settled (record { 0 = 2 }) ∷ Trimmed (record { 0 = 1 }) ∷ NoSuchShard ∷ [] }
{}

/// A subscription takes the entries from a position on, and ends where one is not there yet; one from a position
/// that is given up takes none.
pub fn subscribed_answers()
    ensures { log_of smallest 1
        (Add 0 (record { 0 = 0 }) ∷ Append 0 (record { 0 = 0 }) (record { 0 = 0 }) (112 ∷ []) ∷ Append 0 (record { 0 = 0 }) (record { 0 = 0 }) (113 ∷ [])
        ∷ Append 0 (record { 0 = 0 }) (record { 0 = 0 }) (114 ∷ []) ∷ Trim 0 (record { 0 = 2 }) ∷ Subscribe 0 (record { 0 = 0 }) (record { 0 = 0 }) (record { 0 = 2 }) 10
        ∷ Subscribe 0 (record { 0 = 0 }) (record { 0 = 0 }) (record { 0 = 1 }) 10 ∷ Subscribe 0 (record { 0 = 0 }) (record { 0 = 0 }) (record { 0 = 2 }) 1 ∷ [])
        ≡ Settled (record { 0 = 0 }) ∷ At (record { 0 = 0 }) ∷ At (record { 0 = 1 }) ∷ At (record { 0 = 2 }) ∷ Settled (record { 0 = 4 })
        ∷ Stream' (record { 0 = 2 }) ((record { client = record { 0 = 0 }; number = record { 0 = 4294967298 }; bytes = 114 ∷ [] }) ∷ []) nowhere (PendingRead (record { 0 = 3 }))
        ∷ Stream' (record { 0 = 1 }) [] nowhere (Trimmed (record { 0 = 2 }))
        ∷ Stream' (record { 0 = 2 }) ((record { client = record { 0 = 0 }; number = record { 0 = 4294967298 }; bytes = 114 ∷ [] }) ∷ []) nowhere Nothing ∷ [] }
{}

/// A lane's last append is found where it stands, also where its shard is finalised since.
pub fn asked_answers()
    ensures { log_of smallest 1
        (Add 0 (record { 0 = 0 }) ∷ Append 0 (record { 0 = 0 }) (record { 0 = 0 }) (97 ∷ []) ∷ Finalise 0 (record { 0 = 0 }) ∷ Ask 0 ∷ [])
        ≡ Settled (record { 0 = 0 }) ∷ At (record { 0 = 0 }) ∷ Settled (record { 0 = 2 }) ∷ At (record { 0 = 0 }) ∷ [] }
{}

/// A lane that appended nothing has nothing that is kept, and an append that was refused is not there.
pub fn missing_answers()
    ensures { log_of smallest 1
        (Ask 0 ∷ Append 0 (record { 0 = 0 }) (record { 0 = 0 }) (97 ∷ []) ∷ Ask 0 ∷ Ask 1 ∷ [])
        ≡ NothingKept ∷ NotAdded ∷ Missing ∷ NothingKept ∷ [] }
{}

/// An append that is given up is told as stale. A trim goes as far as the log's end.
pub fn stale_answers()
    ensures { log_of smallest 1
        (Add 0 (record { 0 = 0 }) ∷ Append 0 (record { 0 = 0 }) (record { 0 = 0 }) (112 ∷ []) ∷ Append 0 (record { 0 = 0 }) (record { 0 = 0 }) (113 ∷ [])
        ∷ Append 0 (record { 0 = 0 }) (record { 0 = 0 }) (114 ∷ []) ∷ Trim 0 (record { 0 = 2 }) ∷ Read 0 (record { 0 = 0 }) (record { 0 = 0 }) (record { 0 = 1 })
        ∷ Trim 0 (record { 0 = 99 }) ∷ Read 0 (record { 0 = 0 }) (record { 0 = 0 }) (record { 0 = 2 }) ∷ Ask 0 ∷ [])
        ≡ Settled (record { 0 = 0 }) ∷ At (record { 0 = 0 }) ∷ At (record { 0 = 1 }) ∷ At (record { 0 = 2 }) ∷ Settled (record { 0 = 4 })
        ∷ Trimmed (record { 0 = 2 }) ∷ Settled (record { 0 = 5 }) ∷ Trimmed (record { 0 = 3 }) ∷ Stale (record { 0 = 4294967298 }) ∷ [] }
{}

/// Each item has one reply.
pub fn one_reply_each()
    ensures { (shape : Shape) (run : ℕ) (items : List Item) → length (log_of shape run items) ≡ length items }
{}

/// Items that follow others are answered from the state that those led to.
pub fn answers_go_on()
    ensures replies { (shape : Shape) (run : ℕ) (state : LogState) (items more : List Item)
        → replies_from shape run state (items ++ more)
        ≡ replies_from shape run state items ++ replies_from shape run (state_after shape run state items) more }
    ensures state { (shape : Shape) (run : ℕ) (state : LogState) (items more : List Item)
        → state_after shape run state (items ++ more)
        ≡ state_after shape run (state_after shape run state items) more }
{}

/// Where no put fails, the replies are those of the log of one thread. Where one fails, so are the replies
/// before it, its own is a halt, and from then on appends, reads, subscriptions and questions about a last append
/// find the replica down, and additions, finalisations and trims are settled as before.
pub fn halt_goes_on()
    ensures none { (shape : Shape) (run : ℕ) (items : List Item) → log_with_halt shape run items None ≡ log_of shape run items }
    ensures each { (shape : Shape) (run : ℕ) (items : List Item) (halt : Option ℕ) → IsHaltOf shape run items halt
        → length (log_with_halt shape run items halt) ≡ length items }
    ensures row { log_with_halt smallest 1
        (Add 0 (record { 0 = 0 }) ∷ Append 0 (record { 0 = 0 }) (record { 0 = 0 }) (97 ∷ []) ∷ Read 0 (record { 0 = 0 }) (record { 0 = 0 }) (record { 0 = 0 }) ∷ Add 0 (record { 0 = 0 }) ∷ []) (Some 1)
        ≡ Settled (record { 0 = 0 }) ∷ Halted ∷ Down ∷ Settled (record { 0 = 1 }) ∷ [] }
    ensures decided { log_with_halt two_shards 1
        (Add 0 (record { 0 = 0 }) ∷ Append 0 (record { 0 = 0 }) (record { 0 = 0 }) (97 ∷ []) ∷ Finalise 0 (record { 0 = 1 }) ∷ Add 0 (record { 0 = 1 })
        ∷ Finalise 0 (record { 0 = 1 }) ∷ Trim 0 (record { 0 = 5 }) ∷ Append 0 (record { 0 = 0 }) (record { 0 = 0 }) (98 ∷ []) ∷ []) (Some 1)
        ≡ Settled (record { 0 = 0 }) ∷ Halted ∷ NoSuchShard ∷ Settled (record { 0 = 1 }) ∷ Settled (record { 0 = 2 }) ∷ Settled (record { 0 = 3 }) ∷ Down ∷ [] }
    ensures asked { log_with_halt smallest 1
        (Add 0 (record { 0 = 0 }) ∷ Append 0 (record { 0 = 0 }) (record { 0 = 0 }) (97 ∷ []) ∷ Ask 0 ∷ Ask 1 ∷ []) (Some 1)
        ≡ Settled (record { 0 = 0 }) ∷ Halted ∷ Down ∷ NothingKept ∷ [] }
    ensures followed { log_with_halt smallest 1
        (Add 0 (record { 0 = 0 }) ∷ Append 0 (record { 0 = 0 }) (record { 0 = 0 }) (97 ∷ []) ∷ Subscribe 0 (record { 0 = 0 }) (record { 0 = 0 }) (record { 0 = 5 }) 2 ∷ []) (Some 1)
        ≡ Settled (record { 0 = 0 }) ∷ Halted ∷ Stream' (record { 0 = 5 }) [] nowhere Down ∷ [] }
{}

/// In each state that items lead to, the covered length of each segment is the number of its entries.
pub fn entries_are_covered()
    ensures { (shape : Shape) (run : ℕ) (items : List Item)
        → AllByRecursion (IsItem shape) items
        → IsCoherentState shape (state_after shape run (start shape) items) }
{}

/// In each state that items lead to, a read from the mark on and below the end finds an entry. One below the
/// mark is told the mark, which no item but a trim raises, and one at the end or past it is told the end.
pub fn read_finds_entry()
    ensures found { (shape : Shape) (run : ℕ) (items : List Item) (lane : ℕ) (shard : Shard) (replica : Replica) (position : Position)
        → AllByRecursion (IsItem shape) items
        → let state = state_after shape run (start shape) items in
        (chain_of shape.replicas state.values).mark ≤ position.0
        → position.0 < (chain_of shape.replicas state.values).end
        → (entry : Entry) × (reply_to shape run state (Read lane shard replica position) ≡ Found position entry) }
    ensures untrimmed { (shape : Shape) (run : ℕ) (items : List Item) → NoTrim items
        → (chain_of shape.replicas (state_after shape run (start shape) items).values).mark ≡ 0 }
    ensures given_up { (shape : Shape) (run : ℕ) (state : LogState) (lane : ℕ) (shard : Shard) (replica : Replica) (position : Position)
        → let mark = (chain_of shape.replicas state.values).mark in
        position.0 < mark
        → reply_to shape run state (Read lane shard replica position) ≡ Trimmed (record { 0 = mark }) }
    ensures pending { (shape : Shape) (run : ℕ) (state : LogState) (lane : ℕ) (shard : Shard) (replica : Replica) (position : Position)
        → let end = (chain_of shape.replicas state.values).end in
        end ≤ position.0
        → reply_to shape run state (Read lane shard replica position) ≡ PendingRead (record { 0 = end }) }
{}

/// In each state that items lead to, a subscription takes the entries that reads of its positions find, from the
/// first one on, with none left out. It ends once it has as many as are wanted, before an entry that its stream has
/// no room for, or with the answer to the first position that has no entry.
pub fn subscription_is_told()
    ensures told { (shape : Shape) (run : ℕ) (state : LogState) (lane : ℕ) (shard : Shard) (replica : Replica) (from : Position) (count : ℕ)
        → reply_to shape run state (Subscribe lane shard replica from count)
        ≡ stream_from from (collected (read_in shape.replicas state) room_of_stream from.0 count) }
    ensures taken { (shape : Shape) (run : ℕ) (items : List Item) (from count : ℕ)
        → AllByRecursion (IsItem shape) items
        → let state = state_after shape run (start shape) items in
        IsTaken shape.replicas state room_of_stream from count (collected (read_in shape.replicas state) room_of_stream from count) }
{}

/// In each state that items lead to, an append to a live shard is told the position where the log ended,
/// and a read of this position then finds its entry. To another shard it is refused, and draws its number.
pub fn append_is_told()
    ensures told { (shape : Shape) (run : ℕ) (items : List Item) (lane : ℕ) (shard : Shard) (replica : Replica) (bytes : List ℕ)
        → let state = state_after shape run (start shape) items in
        let item = Append lane shard replica bytes in
        let end : Position = record { 0 = (chain_of shape.replicas state.values).end } in
        AllByRecursion (IsItem shape) items
        → IsItem shape item
        → standing_of shape.replicas state shard.0 ≡ Some Live
        → (reply_to shape run state item ≡ At end)
        × (reply_to shape run (after shape run state item) (Read lane shard replica end)
        ≡ Found end (next_entry run state lane bytes)) }
    ensures finalised { (shape : Shape) (run : ℕ) (state : LogState) (lane : ℕ) (shard : Shard) (replica : Replica) (bytes : List ℕ)
        → let item = Append lane shard replica bytes in
        standing_of shape.replicas state shard.0 ≡ Some Frozen
        → (reply_to shape run state item ≡ Finalised) × (after shape run state item ≡ drawn state lane shard.0 replica.0) }
    ensures not_added { (shape : Shape) (run : ℕ) (state : LogState) (lane : ℕ) (shard : Shard) (replica : Replica) (bytes : List ℕ)
        → let item = Append lane shard replica bytes in
        knows shape.replicas state shard.0 ≡ false
        → (reply_to shape run state item ≡ NotAdded) × (after shape run state item ≡ drawn state lane shard.0 replica.0) }
{}

/// While no other append of its lane follows, one who asks for an append that was told its position is told it
/// again until a trim passes it, and then that it is stale. An append that was refused is missing, and a lane
/// without an append has nothing kept.
pub fn ask_is_told()
    ensures told { (shape : Shape) (run : ℕ) (items more : List Item) (lane : ℕ) (shard : Shard) (replica : Replica) (bytes : List ℕ) (position : Position)
        → let state = state_after shape run (start shape) items in
        let item = Append lane shard replica bytes in
        let later = state_after shape run (after shape run state item) more in
        AllByRecursion (IsItem shape) items
        → IsItem shape item
        → reply_to shape run state item ≡ At position
        → NoAppendOf lane more
        → NoTrimPast position more
        → reply_to shape run later (Ask lane) ≡ At position }
    ensures kept { (shape : Shape) (run : ℕ) (items more : List Item) (lane : ℕ) (shard : Shard) (replica : Replica) (bytes : List ℕ) (position : Position)
        → let state = state_after shape run (start shape) items in
        let item = Append lane shard replica bytes in
        let later = state_after shape run (after shape run state item) more in
        AllByRecursion (IsItem shape) items
        → IsItem shape item
        → reply_to shape run state item ≡ At position
        → NoAppendOf lane more
        → (chain_of shape.replicas later.values).mark ≤ position.0
        → reply_to shape run later (Ask lane) ≡ At position }
    ensures given_up { (shape : Shape) (run : ℕ) (items more : List Item) (lane : ℕ) (shard : Shard) (replica : Replica) (bytes : List ℕ) (position : Position)
        → let state = state_after shape run (start shape) items in
        let item = Append lane shard replica bytes in
        let later = state_after shape run (after shape run state item) more in
        AllByRecursion (IsItem shape) items
        → IsItem shape item
        → reply_to shape run state item ≡ At position
        → NoAppendOf lane more
        → position.0 < (chain_of shape.replicas later.values).mark
        → reply_to shape run later (Ask lane) ≡ Stale (next_entry run state lane bytes).number }
    ensures refused { (shape : Shape) (run : ℕ) (items more : List Item) (lane : ℕ) (shard : Shard) (replica : Replica) (bytes : List ℕ)
        → let state = state_after shape run (start shape) items in
        let item = Append lane shard replica bytes in
        let later = state_after shape run (after shape run state item) more in
        AllByRecursion (IsItem shape) items
        → IsItem shape item
        → standing_of shape.replicas state shard.0 ≢ Some Live
        → NoAppendOf lane more
        → reply_to shape run later (Ask lane) ≡ Missing }
    ensures nothing { (shape : Shape) (run : ℕ) (items : List Item) (lane : ℕ) → NoAppendOf lane items
        → reply_to shape run (state_after shape run (start shape) items) (Ask lane) ≡ NothingKept }
{}

/// A shard that was added is live until an item finalises it, and is finalised from then on.
pub fn live_until_finalised()
    ensures live { (shape : Shape) (run : ℕ) (items : List Item) (shard : Shard) → NoFinalise shard items
        → let state = state_after shape run (start shape) items in
        knows shape.replicas state shard.0 ≡ true
        → standing_of shape.replicas state shard.0 ≡ Some Live }
    ensures finalised { (shape : Shape) (run : ℕ) (state : LogState) (lane : ℕ) (shard : Shard) (more : List Item)
        → knows shape.replicas state shard.0 ≡ true
        → standing_of shape.replicas (state_after shape run (after shape run state (Finalise lane shard)) more) shard.0 ≡ Some Frozen }
{}

/// A value that an item asks for gets the next slot, and stays in it. A shard that was not added is not finalised.
pub fn wishes_are_settled()
    ensures told { (shape : Shape) (run : ℕ) (state : LogState) (item : Item) (value : Value)
        → wished item ≡ Some value
        → reply_to shape run state item ≢ NoSuchShard
        → reply_to shape run state item ≡ Settled (record { 0 = length state.values }) }
    ensures settled { (shape : Shape) (run : ℕ) (state : LogState) (item : Item) (value : Value) (slot : Slot) (more : List Item)
        → wished item ≡ Some value
        → reply_to shape run state item ≡ Settled slot
        → (slot.0 ≡ length state.values)
        × (slice_get (state_after shape run (after shape run state item) more).values slot.0 ≡ Some value) }
    ensures no_such_shard { (shape : Shape) (run : ℕ) (state : LogState) (lane : ℕ) (shard : Shard)
        → let item = Finalise lane shard in
        knows shape.replicas state shard.0 ≡ false
        → (reply_to shape run state item ≡ NoSuchShard) × (after shape run state item ≡ state) }
{}

/// What a trim gives up, up to where the log ended, stays given up.
pub fn trim_gives_up()
    ensures { (shape : Shape) (run : ℕ) (state : LogState) (lane : ℕ) (below : Position) (more : List Item) (reader : ℕ) (shard : Shard) (replica : Replica) (position : Position)
        → let later = state_after shape run (after shape run state (Trim lane below)) more in
        position.0 < min below.0 (chain_of shape.replicas state.values).end
        → reply_to shape run later (Read reader shard replica position) ≡ Trimmed (record { 0 = (chain_of shape.replicas later.values).mark }) }
{}
