ghost use Rattle.board.specs.Laws.{CommandsReadBack, LinesReadBack};

// Every command has a line that gives it.
pub fn commands_read_back()
    ensures { CommandsReadBack }
{}

// Lines that are written one after another, each with its line feed, are the lines of the input.
pub fn lines_read_back()
    ensures { LinesReadBack }
{}
