//! The laws of the definitions. Each is the contract of a function that does nothing.
ghost use Rattle.std.specs.Prelude.{◌≡◌, ◌≢◌, ◌↔◌, codes, Err, List, Ok, Option, ℕ};
ghost use Rattle.order_grammar.specs.Condition.{Ordered, ordered, unconditional};
ghost use Rattle.order_grammar.specs.Line.{cert_reading_of, reading_of};
ghost use Rattle.order_grammar.specs.LineFault.{IsFaultIn, IsFaultOf};
ghost use Rattle.order_grammar.specs.Print.{conditional_spelling, spelling_of};
ghost use Rattle.order_grammar.specs.Spells.{IsOrder, IsOrderIn, Spells, SpellsIn};
ghost use Rattle.order_grammar.specs.SpellsVersion.{IsFaultInVersion, IsOrderUnder, SpellsInVersion};
ghost use Rattle.order_grammar.specs.Texts.{certificate};
ghost use Rattle.order_grammar.specs.Version.{reading_in};
ghost use Rattle.order_grammar.specs.Words.{first_of_words, words_of};
ghost use Rattle.order_grammar.specs.declared.condition.Condition.{Condition};
ghost use Rattle.order_grammar.specs.declared.condition.Version.{Version};
ghost use Rattle.order_grammar.specs.declared.condition.Version.TheVariants.{One, Two};
ghost use Rattle.order_grammar.specs.declared.fault.Fault.{Fault};
ghost use Rattle.order_grammar.specs.declared.order.Order.{Order};

/// States that the printed text of an order is read as that order.
pub fn spelling_is_read_again()
    ensures { (order : Order) → IsOrder order → reading_of (spelling_of order) ≡ Ok order }
{}

/// States that the printed text of an order is read as that order in a certificate's text.
pub fn cert_spelling_is_read_again()
    ensures { (order : Order) → IsOrderIn certificate order →
        cert_reading_of (spelling_of order) ≡ Ok order }
{}

/// States that a line is read as an order exactly if it spells that order.
pub fn read_where_spelt()
    ensures { (line : List ℕ) (order : Order) → (reading_of line ≡ Ok order) ↔ Spells line order }
{}

/// States that a line of a certificate's text is read as an order exactly if it spells that order.
pub fn cert_line_read_where_spelt()
    ensures { (line : List ℕ) (order : Order) →
        (cert_reading_of line ≡ Ok order) ↔ SpellsIn certificate line order }
{}

/// States that a line is read as a fault exactly if it has that fault: the first of five that
/// applies.
pub fn faulty_where_it_has_one()
    ensures { (line : List ℕ) (fault : Fault) →
        (reading_of line ≡ Err fault) ↔ IsFaultOf line fault }
{}

/// States that a line of a certificate's text is read as a fault exactly if it has that fault: the
/// first of five that applies.
pub fn cert_line_faulty_where_it_has_one()
    ensures { (line : List ℕ) (fault : Fault) →
        (cert_reading_of line ≡ Err fault) ↔ IsFaultIn certificate line fault }
{}

/// States that the printed text of an order with a condition is read in version 2 as that order
/// with that condition.
pub fn conditional_spelling_is_read_again()
    ensures { (condition : Option Condition) (order : Order) → IsOrderUnder condition order →
        reading_in Two (conditional_spelling condition order) ≡ Ok (ordered condition order) }
{}

/// States that a line of a file of some version is read as an order with a condition exactly if it
/// spells that.
pub fn read_in_version_where_spelt()
    ensures { (version : Version) (line : List ℕ) (spelt : Ordered) →
        (reading_in version line ≡ Ok spelt) ↔ SpellsInVersion version line spelt }
{}

/// States that such a line is read as a fault exactly if it has that fault.
pub fn faulty_in_version_where_it_has_one()
    ensures { (version : Version) (line : List ℕ) (fault : Fault) →
        (reading_in version line ≡ Err fault) ↔ IsFaultInVersion version line fault }
{}

/// States that a line of version 1 is read as it is without versions.
pub fn version_one_has_no_conditions()
    ensures { (line : List ℕ) → reading_in One line ≡ unconditional (reading_of line) }
{}

/// States that a line that does not begin with IF is read the same in both versions.
pub fn versions_differ_by_if_alone()
    ensures { (line : List ℕ) → first_of_words (words_of line) ≢ codes "IF" →
        reading_in Two line ≡ reading_in One line }
{}
