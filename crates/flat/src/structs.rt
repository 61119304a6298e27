// The flat structs that the libraries' values go out in and a host's come in.
// The C interface has each field for field: a refusal, a flag, a kind or a count is a number beside its value.

// The number of a refusal and its values, those that it lacks 0. Number 0, with values 0, is no refusal.
#[repr(C)]
#[derive(Clone, Copy, Default)]
pub struct Refusal {
    pub number: u64,
    pub a: u64,
    pub b: u64,
    pub c: u64,
}

#[repr(C)]
#[derive(Clone, Copy, Default)]
pub struct Scheduler {
    pub buf_len: u64,
    pub items_written: u64,
    pub items_read: u64,
    pub fill: u64,
}

// `typ` is 0 for free and 1 for data; `no` is 0 for the first that is used and 1 for the one that comes round.
#[repr(C)]
#[derive(Clone, Copy, Default)]
pub struct Block {
    pub typ: u64,
    pub no: u64,
    pub off: u64,
    pub len: u64,
}

// `typ` is 0 for a read and 1 for a write; of a host's any number but 0 is a write.
#[repr(C)]
#[derive(Clone, Copy, Default)]
pub struct Operation {
    pub typ: u64,
    pub off: u64,
    pub len: u64,
}

// The first `count` of the two; the others are zeros in answers. A host's count above 1 is two.
#[repr(C)]
#[derive(Clone, Copy, Default)]
pub struct Operations {
    pub count: u64,
    pub first: Operation,
    pub second: Operation,
}

// An operation, and where it starts and ends in the linear buffer outside the ring.
#[repr(C)]
#[derive(Clone, Copy, Default)]
pub struct Range {
    pub start: u64,
    pub end: u64,
    pub op: Operation,
}

#[repr(C)]
#[derive(Clone, Copy, Default)]
pub struct Ranges {
    pub count: u64,
    pub first: Range,
    pub second: Range,
}

// The same value where `different` is 0, and then `new` is `old` in answers and not looked at in a host's.
#[repr(C)]
#[derive(Clone, Copy, Default)]
pub struct Diff {
    pub different: u64,
    pub old: u64,
    pub new: u64,
}

// The two kinds of end, and the counter that each sends.
#[repr(C)]
#[derive(Clone, Copy, Default)]
pub struct WritingEnd {
    pub scheduler: Scheduler,
}

#[repr(C)]
#[derive(Clone, Copy, Default)]
pub struct ReadingEnd {
    pub scheduler: Scheduler,
}

#[repr(C)]
#[derive(Clone, Copy, Default)]
pub struct WrittenCounter {
    pub counter: u64,
}

#[repr(C)]
#[derive(Clone, Copy, Default)]
pub struct ReadCounter {
    pub counter: u64,
}

// Kind 0 is an errno, any other (1 in answers) a violation by `Violation::number`, read back by `Violation::of_number`. The bytes
// needed and the room are an overflow's; of others they are 0 in answers and not looked at in a host's.
#[repr(C)]
#[derive(Clone, Copy, Default)]
pub struct Failure {
    pub kind: u64,
    pub value: u64,
    pub needed: u64,
    pub room: u64,
}

// Kind 0 is normal, 1 draining and any other terminated (2 in answers). The failure of a normal one is zeros in answers and not
// looked at in a host's.
#[repr(C)]
#[derive(Clone, Copy, Default)]
pub struct State {
    pub kind: u64,
    pub failure: Failure,
}

// A shutdown was issued unless the last is 0; it is 1 in answers.
#[repr(C)]
#[derive(Clone, Copy, Default)]
pub struct Receiver {
    pub scheduler: Scheduler,
    pub state: State,
    pub pending_ack_count: u64,
    pub notification_socket_shutdown_issued: u64,
}

// Kind 0 is a read, 1 done and any other failed (2 in answers). Descriptors are counted beside each kind; `n` and `failure` are 0 in
// answers of a kind that does not use them, and not looked at in a host's.
#[repr(C)]
#[derive(Clone, Copy, Default)]
pub struct Outcome {
    pub kind: u64,
    pub n: u64,
    pub fds: u64,
    pub failure: Failure,
}

// The outcome that a call still ends with: whatever comes of what it waits for where `told` is 0, and else (1 in answers) unless
// that fails.
#[repr(C)]
#[derive(Clone, Copy, Default)]
pub struct Ending {
    pub told: u64,
    pub outcome: Outcome,
}

// Kind 0 waits for a receive of a byte with at most `max_new_fds` descriptors, 1 for a send of `batch` bytes and 2 for a shutdown;
// any other (3 in answers) is finished. What a kind does not use is 0 in answers and not looked at in a host's.
#[repr(C)]
#[derive(Clone, Copy, Default)]
pub struct Phase {
    pub kind: u64,
    pub max_new_fds: u64,
    pub dst_len: u64,
    pub batch: u64,
    pub ending: Ending,
    pub outcome: Outcome,
}

// A call in progress. The bytes of a read are copied by `source`, before the first send: an acknowledgement allows the other process
// to overwrite them.
#[repr(C)]
#[derive(Clone, Copy, Default)]
pub struct Call {
    pub receiver: Receiver,
    pub source: Scheduler,
    pub phase: Phase,
}

// An answer: where it is refused, every field but the refusal is 0. A bool is 0 or 1; a fill state 0 for empty, 1 for partial
// and 2 for full; a layout 0 for `DataFreeData` and 1 for `FreeDataFree`.
#[repr(C)]
#[derive(Clone, Copy, Default)]
pub struct U64Answer {
    pub refusal: Refusal,
    pub value: u64,
}

#[repr(C)]
#[derive(Clone, Copy, Default)]
pub struct SchedulerAnswer {
    pub refusal: Refusal,
    pub scheduler: Scheduler,
}

#[repr(C)]
#[derive(Clone, Copy, Default)]
pub struct BlockAnswer {
    pub refusal: Refusal,
    pub block: Block,
}

#[repr(C)]
#[derive(Clone, Copy, Default)]
pub struct BlocksAnswer {
    pub refusal: Refusal,
    pub block_0: Block,
    pub block_1: Block,
    pub block_2: Block,
}

// An operation where `some` is 1; none where it is 0. What was asked is its length, 0 for none, and the remainder.
#[repr(C)]
#[derive(Clone, Copy, Default)]
pub struct NextAnswer {
    pub refusal: Refusal,
    pub some: u64,
    pub operation: Operation,
    pub remainder: u64,
}

// What was asked is the sum of the lengths and the remainder.
#[repr(C)]
#[derive(Clone, Copy, Default)]
pub struct ScheduleAnswer {
    pub refusal: Refusal,
    pub operations: Operations,
    pub remainder: u64,
}

#[repr(C)]
#[derive(Clone, Copy, Default)]
pub struct OperationsAnswer {
    pub refusal: Refusal,
    pub operations: Operations,
}

#[repr(C)]
#[derive(Clone, Copy, Default)]
pub struct RangesAnswer {
    pub refusal: Refusal,
    pub ranges: Ranges,
}

// Each operation, and where it starts in the linear buffer outside the ring.
#[repr(C)]
#[derive(Clone, Copy, Default)]
pub struct StartsAnswer {
    pub refusal: Refusal,
    pub count: u64,
    pub first_start: u64,
    pub first: Operation,
    pub second_start: u64,
    pub second: Operation,
}

// The scheduler after a copy, how many bytes were moved, and how many of those asked were left over.
#[repr(C)]
#[derive(Clone, Copy, Default)]
pub struct CopyAnswer {
    pub refusal: Refusal,
    pub scheduler: Scheduler,
    pub n: u64,
    pub remainder: u64,
}

#[repr(C)]
#[derive(Clone, Copy, Default)]
pub struct WritingEndAnswer {
    pub refusal: Refusal,
    pub end: WritingEnd,
}

#[repr(C)]
#[derive(Clone, Copy, Default)]
pub struct ReadingEndAnswer {
    pub refusal: Refusal,
    pub end: ReadingEnd,
}

#[repr(C)]
#[derive(Clone, Copy, Default)]
pub struct WroteAnswer {
    pub refusal: Refusal,
    pub end: WritingEnd,
    pub n: u64,
    pub remainder: u64,
}

#[repr(C)]
#[derive(Clone, Copy, Default)]
pub struct GotAnswer {
    pub refusal: Refusal,
    pub end: ReadingEnd,
    pub n: u64,
    pub remainder: u64,
}

// What a copy in place answers: the end after it is in the host's struct.
#[repr(C)]
#[derive(Clone, Copy, Default)]
pub struct MovedAnswer {
    pub refusal: Refusal,
    pub n: u64,
    pub remainder: u64,
}

#[repr(C)]
#[derive(Clone, Copy, Default)]
pub struct WrittenCounterAnswer {
    pub refusal: Refusal,
    pub counter: WrittenCounter,
}

#[repr(C)]
#[derive(Clone, Copy, Default)]
pub struct ReadCounterAnswer {
    pub refusal: Refusal,
    pub counter: ReadCounter,
}

#[repr(C)]
#[derive(Clone, Copy, Default)]
pub struct FailureAnswer {
    pub refusal: Refusal,
    pub failure: Failure,
}

// A failure where `some` is 1; none where it is 0.
#[repr(C)]
#[derive(Clone, Copy, Default)]
pub struct PotentialFailureAnswer {
    pub refusal: Refusal,
    pub some: u64,
    pub failure: Failure,
}

#[repr(C)]
#[derive(Clone, Copy, Default)]
pub struct StateAnswer {
    pub refusal: Refusal,
    pub state: State,
}

#[repr(C)]
#[derive(Clone, Copy, Default)]
pub struct ReceiverAnswer {
    pub refusal: Refusal,
    pub receiver: Receiver,
}

// A call in progress after a call of the machine; where that is refused the host goes on with the one that it passed.
#[repr(C)]
#[derive(Clone, Copy, Default)]
pub struct StepAnswer {
    pub refusal: Refusal,
    pub call: Call,
}

// The receiver after a call, what the call came to, and how many of the socket's answers it used.
#[repr(C)]
#[derive(Clone, Copy, Default)]
pub struct EndedAnswer {
    pub refusal: Refusal,
    pub receiver: Receiver,
    pub outcome: Outcome,
    pub used: u64,
}

// A plan: how many strips, the rows in each but the last, and the rows in the last. One strip alone has both.
#[repr(C)]
#[derive(Clone, Copy, Default)]
pub struct StripsAnswer {
    pub refusal: Refusal,
    pub count: u64,
    pub height: u64,
    pub last: u64,
}

// How many runs stand at the front of the lent plan.
#[repr(C)]
#[derive(Clone, Copy, Default)]
pub struct ProposeAnswer {
    pub refusal: Refusal,
    pub count: u64,
}
