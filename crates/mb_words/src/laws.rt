// What holds of the definition of settings.
ghost use Rattle.mb_words.specs.Orders.{OrderDoesNotMatter, NeighboursMayChange};

/// Words of one command whose operands are the same, and whose options are the same in another order and at other
/// places, give the same settings, or are refused for the same cause.
pub fn the_order_of_options_does_not_matter()
    ensures { OrderDoesNotMatter }
{}

/// An option that stands in one word may change places with the word behind it, an operand or another such option:
/// the words then give the same.
pub fn an_option_may_change_places()
    ensures { NeighboursMayChange }
{}
