//! Order files, and what is expected for them.

/// ANN buys SV in the first opening round, and then all pass.
pub const FIRST: &str = "GAME 1830 1
PLAYERS ANN BOB CYD
SHEET ANN PR1
TURN
BUY SV
SHEET BOB PR1
SHEET CYD PR1
";

/// The same with a condition that holds, so that the order is kept in a block of memory.
pub const CONDITIONS: &str = "GAME 1830 2
PLAYERS ANN BOB CYD
SHEET ANN PR1
TURN
IF PHASE 2 BUY SV
SHEET BOB PR1
SHEET CYD PR1
";

/// The same after three unread lines: a word that begins no order, an order outside a sheet, and a
/// sheet of somebody who is not a player.
pub const UNREAD: &str = "GAME 1830 1
PLAYERS ANN BOB CYD
X
TURN
SHEET DAN PR1
SHEET ANN PR1
TURN
BUY SV
SHEET BOB PR1
SHEET CYD PR1
";

/// What its report says of these lines, before its end.
pub const UNREAD_LINES: &str = "UNREAD 1 G3
UNREAD 2 G6
UNREAD 3 G7
";

/// The header of the first game's report.
pub const HEADER: &str = "GAME 1830 1
PLAYERS ANN BOB CYD
";

/// The text of its one round: SV pays ANN 5 of the bank's 9,620.
pub const FIRST_ROUND: &str = "ROUND PR1
ANN 2 OBEYED BUY SV
SOLD SV ANN 20
BOB PASSES
CYD PASSES
ANN PASSES
REVENUE SV ANN 5
PLAYER ANN        785  1  0  0  0  0  0  0  0  0 SV
PLAYER BOB        800  0  0  0  0  0  0  0  0  0
PLAYER CYD        800  0  0  0  0  0  0  0  0  0
BANK   9615
";

/// The end of its report.
pub const AWAITED: &str = "AWAITING PR2 ANN BOB CYD
";

/// PRR lays a tile and buys two 2s in OR1.1, and obeys RUN BEST in OR2.1. In SR1 many sales are
/// refused, so that the list of events grows there.
pub const SCRIPT: &str = "GAME 1830 1
PLAYERS ANN BOB CYD
SHEET ANN PR1
TURN
BUY SV
TURN
BUY MH
SHEET BOB PR1
TURN
BUY CS
TURN
BUY CA
SHEET CYD PR1
TURN
BUY DH
TURN
BUY BOP
SHEET ANN SR1
TURN
PAR PRR 67
TURN
SELL PRR 1
SELL PRR 1
SELL PRR 1
SELL PRR 1
SELL PRR 1
SELL PRR 1
SELL PRR 1
SELL PRR 1
SELL PRR 1
SELL PRR 1
SELL PRR 1
SELL PRR 1
BUY PRR IPO
SHEET BOB SR1
TURN
BUY PRR IPO
SHEET CYD SR1
TURN
BUY PRR IPO
SHEET ANN OR1.1
COMPANY PRR
LAY 57 H10 1
TRAIN 2 BANK
TRAIN 2 BANK
SHEET BOB OR1.1
SHEET CYD OR1.1
SHEET ANN SR2
SHEET BOB SR2
SHEET CYD SR2
SHEET ANN OR2.1
COMPANY PRR
RUN BEST
PAY
SHEET BOB OR2.1
SHEET CYD OR2.1
";
