//! Laws of scripts and spellings. Each function does nothing: its contract is the law.
ghost use Rattle.std.specs.Prelude.{◌≡◌, ◌↔◌, ◌≤◌, ℕ, true, Ok, Err, List, [], ◌∷◌, ◌++◌, length, All};
ghost use Rattle.std.specs.List.{flat_map};
ghost use Rattle.kte_command.specs.declared.command.Command.{Command};
ghost use Rattle.kte_script.specs.Fields.{Kind};
ghost use Rattle.kte_script.specs.InWords.{IsCommandLine, IsFaultyLine};
ghost use Rattle.kte_script.specs.Limits.{AllFit, ArePartedBy, IsWithin, InLimits};
ghost use Rattle.kte_script.specs.Reading.{read_fields, command_at};
ghost use Rattle.kte_script.specs.Script.{Says, meaning, script_of};
ghost use Rattle.kte_script.specs.ScriptInWords.{IsScript, IsBad, HasTooMany};
ghost use Rattle.kte_script.specs.Table.{Values, spell_fields, spelling};
ghost use Rattle.kte_script.specs.Words.{ends_here};
ghost use Rattle.kte_script.specs.declared.TheConstants.{MAX_SCRIPT_LENGTH, MAX_COMMANDS};
ghost use Rattle.kte_script.specs.declared.limits.Limits.{Limits};
ghost use Rattle.kte_script.specs.declared.limits.Limits.TheVariants.{Journal};
ghost use Rattle.kte_script.specs.declared.fault.ScriptFault.TheVariants.{Bad, TooMany};

/// A command within the limits of a script, spelled and read, is itself: a line that is its
/// spelling says this command.
pub fn spelled_and_read()
    ensures words { (command : Command) → InLimits command
        → command_at (spelling command) ≡ Ok command }
    ensures line { (command : Command) → InLimits command
        → meaning (spelling command) ≡ Says command }
{}

/// Fields that are spelled and read are themselves: of any kinds, for any table, whatever follows
/// them. After spans no digit may begin the next word.
pub fn fields_spelled_and_read()
    ensures { (limits : Limits) (kinds : List Kind) (values : Values kinds) (rest : List ℕ)
        → AllFit limits kinds values → ArePartedBy kinds values rest → ends_here rest ≡ true
        → read_fields limits kinds (spell_fields kinds values ++ rest) ≡ Ok (values, rest) }
{}

/// No spelling of a command begins with the spelling of another and a space: two spellings that are
/// each followed by a space and by anything are of one command.
pub fn one_spelling()
    ensures script { (a b : Command) (after_a after_b : List ℕ) → InLimits a → InLimits b
        → spelling a ++ 32 ∷ after_a ≡ spelling b ++ 32 ∷ after_b → a ≡ b }
    ensures journal { (a b : Command) (after_a after_b : List ℕ)
        → IsWithin Journal a → IsWithin Journal b
        → spelling a ++ 32 ∷ after_a ≡ spelling b ++ 32 ∷ after_b → a ≡ b }
{}

/// Reading is what a line says in words. It gives a command where the line is the word of a row of
/// the table, the row's fields and spaces; and it stops at the first word that is none of these.
pub fn lines_in_words()
    ensures command { (line : List ℕ) (command : Command)
        → (command_at line ≡ Ok command) ↔ IsCommandLine line command }
    ensures fault { (line : List ℕ) (left : ℕ)
        → (command_at line ≡ Err left) ↔ IsFaultyLine line left }
{}

/// A script is what its lines say in words. Its commands are those that its lines say, if no line
/// is at fault and they are not too many. Otherwise the first line at fault is named, unless the
/// commands before it are too many, and then the line of the first one too many.
pub fn scripts_in_words()
    ensures commands { (bytes : List ℕ) (commands : List Command)
        → (script_of bytes ≡ Ok commands) ↔ IsScript bytes commands }
    ensures bad { (bytes : List ℕ) (line column : ℕ)
        → (script_of bytes ≡ Err (Bad line column)) ↔ IsBad bytes line column }
    ensures too_many { (bytes : List ℕ) (line : ℕ)
        → (script_of bytes ≡ Err (TooMany line)) ↔ HasTooMany bytes line }
{}

/// Commands within the limits of a script, each spelled and followed by LF, are a script that is
/// read as these commands, if neither they nor its bytes are too many.
pub fn scripts_spelled_and_read()
    ensures { (commands : List Command) (bytes : List ℕ) → All InLimits commands
        → length commands ≤ MAX_COMMANDS
        → bytes ≡ flat_map (λ command. spelling command ++ 10 ∷ []) commands
        → length bytes ≤ MAX_SCRIPT_LENGTH → script_of bytes ≡ Ok commands }
{}
