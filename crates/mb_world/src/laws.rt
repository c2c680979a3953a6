// What a world stands for after each call: laws over the definitions, so the bodies are empty.
ghost use Rattle.mb_world.specs.Laws.{OfText, OfSymbol, OfMade, OfHidden, OfChanged, OfHiddenChanged, OfCell, OfScope, OfChangedScope, OfQueue, OfProgram, OfSides, OfTexts, OfEntry, OfRules, OfRevoked, OfJoined, OfHalted};

/// A text more leaves the image, and each id stands for what it stood for.
pub fn a_text_changes_nothing_else()
    ensures { OfText }
{}

/// A new symbol is the last of the image.
pub fn a_symbol_is_the_last()
    ensures { OfSymbol }
{}

/// A new cell that has a number is the last object of the image, and its id stands for it.
pub fn an_object_is_the_last()
    ensures { OfMade }
{}

/// A new membrane proxy, shadow or built-in leaves the image.
pub fn what_has_no_number_leaves_nothing()
    ensures { OfHidden }
{}

/// A changed cell changes its object of the image.
pub fn a_changed_object_keeps_its_number()
    ensures { OfChanged }
{}

/// A changed membrane proxy, shadow or built-in leaves the image.
pub fn what_has_no_number_changes_nothing()
    ensures { OfHiddenChanged }
{}

/// The object that the id of a cell stands for.
pub fn an_id_names_its_object()
    ensures { OfCell }
{}

/// A new scope is the last of the image.
pub fn a_scope_is_the_last()
    ensures { OfScope }
{}

/// A changed scope changes that of the image.
pub fn a_changed_scope_keeps_its_place()
    ensures { OfChangedScope }
{}

/// The jobs of a side.
pub fn jobs_stand_in_their_queue()
    ensures { OfQueue }
{}

/// The script of a side.
pub fn a_script_is_that_of_its_side()
    ensures { OfProgram }
{}

/// How many sides take part tells which queues and scripts the image has.
pub fn the_image_has_the_sides_that_take_part()
    ensures { OfSides }
{}

/// A fresh world that takes texts has the image of before.
pub fn taken_texts_leave_the_image()
    ensures { OfTexts }
{}

/// A new entry is the last of the trace, and the image is as before.
pub fn an_entry_is_the_last()
    ensures { OfEntry }
{}

/// The rules.
pub fn rules_are_those_of_the_world()
    ensures { OfRules }
{}

/// The mark of revocation.
pub fn a_revoked_world_has_a_revoked_image()
    ensures { OfRevoked }
{}

/// A world that is joined has the image of before.
pub fn joining_leaves_the_image()
    ensures { OfJoined }
{}

/// A world that is halted has the image of before.
pub fn halting_leaves_the_image()
    ensures { OfHalted }
{}
