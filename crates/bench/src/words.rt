//! The words after the program's name: the measurement that they name, and the words that are left as its options.
ghost use Rattle.std.specs.Prelude.{◌≡◌, ◌↔◌, [], ◌∷◌, Some, drop, map, take, codes};
ghost use Rattle.std.specs.String.{string_bytes};
ghost use Rattle.bench.specs.declared.words.Task.TheVariants as task;

/// The task that the words name.
#[derive(Clone, Copy, Debug, PartialEq, Eq)]
pub(crate) enum Task {
    /// No word: a line that says which words there are.
    Hint,
    /// `map`: the sparse map beside std's hash map.
    Map,
    /// `run`, and after it the options of a made trace: the whole program.
    Run,
    /// `sweep`, and after it the options of a volume: a sweep beside its runs.
    Sweep,
    /// `form`, and after it the options of a volume: a trace in both forms of lines.
    Form,
}

/// The task that the words name, or `None` if they name none.
pub(crate) fn task_of(words: &[String]) -> Option<Task>
    ensures hint { (result ≡ Some task.Hint) ↔ (words.now ≡ []) }
    ensures map { (result ≡ Some task.Map) ↔ (map string_bytes words.now ≡ codes "map" ∷ []) }
    ensures sweep { (result ≡ Some task.Sweep) ↔ (take 1 (map string_bytes words.now) ≡ codes "sweep" ∷ []) }
    ensures form { (result ≡ Some task.Form) ↔ (take 1 (map string_bytes words.now) ≡ codes "form" ∷ []) }
    ensures run { (result ≡ Some task.Run) ↔ (take 1 (map string_bytes words.now) ≡ codes "run" ∷ []) }
{
    let Some((first, others)) = words.split_first() else {
        return Some(Task::Hint);
    };
    if first.as_str() == "run" {
        return Some(Task::Run);
    }
    if others.is_empty() && first.as_str() == "map" {
        return Some(Task::Map);
    }
    if first.as_str() == "sweep" {
        return Some(Task::Sweep);
    }
    if first.as_str() == "form" {
        return Some(Task::Form);
    }
    None
}

/// The words after the first word.
pub(crate) fn after_first(words: &[String]) -> &[String]
    ensures { result.now ≡ drop 1 words.now }
{
    match words.split_first() {
        Some((_, others)) => others,
        None => words,
    }
}
