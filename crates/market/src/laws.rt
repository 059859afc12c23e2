//! The laws of the definitions. Each is the contract of a function that does nothing.
ghost use Rattle.std.specs.Prelude.{◌≡◌, ◌∷◌, [], List, ℕ};
ghost use Rattle.events.specs.declared.event.Event.{Event};
ghost use Rattle.market.specs.Moves.{StaysOnChart, down_of, fallen, square_left_of, right_of, up_of};
ghost use Rattle.market.specs.OperatingOrder.{IsOperatingOrder, both_at_67, operating_order_of};
ghost use Rattle.tables.specs.declared.roster.Company.TheVariants.{BaltimoreOhio, Pennsylvania};

/// States that a token on the chart stays on the chart, however it moves.
pub fn moves_stay_on_chart()
    ensures right { StaysOnChart right_of }
    ensures left { StaysOnChart square_left_of }
    ensures up { StaysOnChart up_of }
    ensures down { StaysOnChart down_of }
    ensures fall { (squares : ℕ) → StaysOnChart (fallen squares) }
{}

/// States that the operating order has each floated company with a square once, and no others, and
/// is sorted.
pub fn floated_companies_in_order()
    ensures { (events : List Event) → IsOperatingOrder events (operating_order_of events) }
{}

/// States an example, computed: BO operates before PRR in a list in which both start at 67, BO
/// first, and float there. `floated_companies_in_order` states it for every list.
pub fn first_there_operates_first()
    ensures { operating_order_of both_at_67 ≡ BaltimoreOhio ∷ Pennsylvania ∷ [] }
{}
