// What the objects of cells are in the graph: laws over the definitions, so the bodies are empty.
ghost use Rattle.mb_ordinary.specs.Laws.{OfNumbered, OfBuiltIn};

/// A cell that has a number is the object of the graph with that number.
pub fn a_numbered_cell_is_an_object_of_the_graph()
    ensures { OfNumbered }
{}

/// A side's built-in is the one of the table.
pub fn a_built_in_is_that_of_the_table()
    ensures { OfBuiltIn }
{}
