//! Laws of decoding and of runs.

ghost use Rattle.std.specs.Prelude.{◌≡◌, ◌+◌, ◌<◌, ◌≤◌, ◌++◌, ℕ, List, Ok, Err, Option, length};
ghost use Rattle.dwarf_base.specs.declared.common.Encoding.{Encoding};
ghost use Rattle.dwarf_base.specs.Faults.{Fault};
ghost use Rattle.dwarf_base.specs.Fronts.{ReadsExactly, TakesFront};
ghost use Rattle.dwarf_base.specs.Reads.{Text};
ghost use Rattle.dwarf_value.specs.declared.types.Value.{Value};
ghost use Rattle.dwarf_value.specs.Laws.{IsWidth};
ghost use Rattle.dwarf_meaning.specs.Acts.{act, use_of};
ghost use Rattle.dwarf_meaning.specs.Agreement.{Both, AgreeingActs, AgreeingAnswers, AgreeingNumbers, AgreeingStacks, AgreeingUses};
ghost use Rattle.dwarf_meaning.specs.Operations.{Operation};
ghost use Rattle.dwarf_meaning.specs.Operands.{Context};
ghost use Rattle.dwarf_meaning.specs.Decoding.{operation_at, operation_in};
ghost use Rattle.dwarf_meaning.specs.Spelling.{Spells, Malformed};
ghost use Rattle.dwarf_meaning.specs.Splitting.{Splitting};
ghost use Rattle.dwarf_meaning.specs.DecodeLaws.{AreBytes, BranchesNear, IsDecided, SplitsOnce, IsSplitting, IsDecodingFault};
ghost use Rattle.dwarf_meaning.specs.Requests.{Answer, Input, OnAnswer};
ghost use Rattle.dwarf_meaning.specs.Stores.{Setup, IsWithin, Store};
ghost use Rattle.dwarf_meaning.specs.Run.{Position, Course, most_operations, turn, run_for, enough_turns, run, return_to_callers};
ghost use Rattle.dwarf_meaning.specs.Meaning.{IsOver, First, outcome_of_end, meaning};
ghost use Rattle.dwarf_meaning.specs.RunLaws.{turns_left, IsSettled, course_before, EndTook, MaximaWithin, AtEnd, CountsWithin, ListsWithin, EndWithin, OutcomeWithin, outermost, OutcomeOpen};
ghost use Rattle.dwarf_meaning.specs.Refusals.{Refusal};

/// Laws of decoding, for every text.
///
/// It does nothing. Its contract states that decoding reads exactly the operations that the bytes spell; that a text
/// begins with exactly one operation or has exactly one fault; how a text splits into operations; and that the operands
/// of branches have 16 bits.
pub fn decode_laws()
    ensures reading { (context : Context)
        → ReadsExactly (Spells context) (Malformed context) (operation_in context) }
    ensures faults { (encoding : Encoding) (offset_bits : ℕ) (text : Text) (fault : Fault)
        → operation_at encoding offset_bits text ≡ Err fault → IsDecodingFault fault }
    ensures decided { (context : Context) (bytes : List ℕ) → IsDecided context bytes }
    ensures some_bytes { (context : Context) (bytes : List ℕ) (op : Operation)
        → Spells context bytes op → 0 < length bytes }
    ensures whole { (context : Context) (bytes : List ℕ) (op : Operation)
        → Spells context bytes op → TakesFront (operation_in context) bytes op }
    ensures once { (context : Context) (bytes : List ℕ) → SplitsOnce context bytes }
    ensures splitting { (context : Context) (bytes : List ℕ) (ops : List Operation)
        (fault : Option Fault) → Splitting context bytes ops fault
        → IsSplitting context bytes ops fault }
    ensures branches { (encoding : Encoding) (offset_bits : ℕ) (text : Text) (op : Operation)
        (rest : List ℕ) → AreBytes text.bytes
        → operation_at encoding offset_bits text ≡ Ok (op, rest) → BranchesNear op }
{}

/// Laws of runs, for every text.
///
/// It does nothing. Its contract states these laws. A run is one turn and then the rest of the run; any number of turns
/// that is large enough gives the same run. Each answered request takes one input, and further inputs change nothing.
/// Each operation of the path is counted once, up to the maximum in force and 4294967295. Each list stays within its
/// limit. So do the open texts of a request, which are the text and its open callees.
pub fn run_laws()
    ensures one_turn { (setup : Setup) (text : Text) (place depth : ℕ) (s : Store)
        (inputs : List Input)
        → run setup text place depth s inputs ≡ turn (run setup) setup text place depth s inputs }
    ensures enough_turns { (n m : ℕ) (setup : Setup) (text : Text) (place depth : ℕ) (s : Store)
        (inputs : List Input) → turns_left s ≤ n → turns_left s ≤ m
        → run_for n setup text place depth s inputs ≡ run_for m setup text place depth s inputs }
    ensures always_enough { (s : Store) → turns_left s ≤ enough_turns }
    ensures inputs { (setup : Setup) (text : Text) (place depth : ℕ) (s : Store)
        (inputs more : List Input) → IsSettled (run setup text place depth s inputs).end
        → run setup text place depth s (inputs ++ more)
        ≡ course_before more (run setup text place depth s inputs) }
    ensures inputs_of_meaning { (setup : Setup) (refusal : Refusal) (text : Text) (first : First)
        (inputs more : List Input) → IsOver (meaning setup refusal text first inputs)
        → meaning setup refusal text first (inputs ++ more)
        ≡ meaning setup refusal text first inputs }
    ensures taken { (setup : Setup) (text : Text) (place depth : ℕ) (s : Store)
        (inputs : List Input)
        → let course = run setup text place depth s inputs in
        EndTook inputs course.requests course.end }
    ensures counts { (setup : Setup) (text : Text) (place depth : ℕ) (s : Store)
        (inputs : List Input)
        → let course = run setup text place depth s inputs in
        AtEnd (λ end. end.count ≡ s.count + length course.path) course.end }
    ensures maximum { (bound : ℕ) (setup : Setup) (text : Text) (place depth : ℕ) (s : Store)
        (inputs : List Input) → s.count ≤ bound → s.settings.maximum ≤ bound
        → MaximaWithin bound inputs
        → CountsWithin bound s.count (run setup text place depth s inputs) }
    ensures maximum_kept { (bound : ℕ) (setup : Setup) (text : Text) (place depth : ℕ) (s : Store)
        (inputs : List Input) → s.count ≤ bound → s.settings.maximum ≤ bound
        → MaximaWithin bound inputs
        → AtEnd (λ end. end.settings.maximum ≤ bound) (run setup text place depth s inputs).end }
    ensures most_of_all { (setup : Setup) (text : Text) (place depth : ℕ) (s : Store)
        (inputs : List Input) → s.count ≤ most_operations
        → CountsWithin most_operations s.count (run setup text place depth s inputs) }
    ensures within { (setup : Setup) (text : Text) (place depth : ℕ) (s : Store)
        (inputs : List Input) → IsWithin setup.limits.callers depth → ListsWithin setup.limits s
        → EndWithin setup.limits text depth (run setup text place depth s inputs).end }
    ensures within_callers { (setup : Setup) (text : Text) (callers : List Position)
        (course : Course) → IsWithin setup.limits.callers (length callers)
        → EndWithin setup.limits text (length callers) course.end
        → OutcomeWithin setup.limits (outermost text callers)
        (outcome_of_end setup (return_to_callers setup callers course).end) }
    ensures within_meaning { (setup : Setup) (refusal : Refusal) (text : Text) (first : First)
        (inputs : List Input)
        → OutcomeWithin setup.limits text (meaning setup refusal text first inputs) }
    ensures callees { (setup : Setup) (text : Text) (place depth : ℕ) (s : Store)
        (inputs : List Input)
        → OutcomeOpen inputs text
        (outcome_of_end setup (run setup text place depth s inputs).end) }
    ensures callees_of_meaning { (setup : Setup) (refusal : Refusal) (text : Text) (first : First)
        (inputs : List Input) → OutcomeOpen inputs text (meaning setup refusal text first inputs) }
{}

/// Laws of agreeing stacks: bits above the address size change nothing that an operation or an answer does.
///
/// It does nothing. Its contract states these laws. On stacks whose values agree one by one, with agreeing addresses of
/// the described object, each operation makes the same request, branch, piece or fault, and leaves and pushes agreeing
/// values. Agreeing answers to one request push agreeing values, call the same text, or are the same fault.
pub fn agreement_laws()
    ensures operations { (w : ℕ) (object other : Option ℕ) (op : Operation)
        (values others : List Value) → Both (AgreeingNumbers w) object other
        → AgreeingStacks w values others
        → AgreeingActs w (act w object op values) (act w other op others) }
    ensures answers { (w : ℕ) (on_answer : OnAnswer) (answer another : Answer)
        (values others : List Value) → IsWidth w → AgreeingAnswers w answer another
        → AgreeingStacks w values others
        → AgreeingUses w (use_of w on_answer answer values) (use_of w on_answer another others) }
{}
