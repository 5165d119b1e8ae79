//! Laws of the grammar, each the contract of a function with nothing to do.
ghost use Rattle.std.specs.Prelude.{◌≡◌, All, List, Ok};
ghost use Rattle.std.specs.List.{flat_map};
ghost use Rattle.mc_script.specs.Command.{IsValid};
ghost use Rattle.mc_script.specs.Script.{script_of};
ghost use Rattle.mc_script.specs.Written.{text_of};
ghost use Rattle.mc_script.specs.declared.command.Command.{Command};

/// What is written is read: valid commands, a line each, are a script of just those commands.
pub fn written_is_read()
    ensures { (commands : List Command) → All IsValid commands →
        script_of (flat_map text_of commands) ≡ Ok commands }
{}
