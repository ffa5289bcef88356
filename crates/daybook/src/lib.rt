// The library: a day's mesh in a book of lent 32-bit words, and who touches whom in it.
//
// A book is a slice of words that the caller lends to each call but `salvage`; the library keeps
// nothing and allocates nothing. `load` fills it from a day file; a loaded mesh takes
// 6 + N_D + N_D (D + 1) words, and each relation more takes N_d + 1 words and one for each index. A
// call that does not fit is refused and alters nothing. `salvage` goes from a day file to a day
// file: it keeps every whole cell that `load` would not fault, and lists the others. `sheet` gives the
// cell across each edge of each cell of a sheet, and its rim as a day file. `plain` says whether two
// entities are incident, from the cells' vertex sets alone: a second opinion beside the relations.
//
// Word 0 is the file's first 32 bits, word 1 the sum of 2^(4d+e) over the relations d→e held, word
// 1 + d for d = 1, 2 is N_d while d < D and some relation held names d, else 0, word 4 is the used
// length, and behind them stand the relations by ascending 4d+e: N_d + 1 offsets, then the indices.
// Row i runs from offset i up to, but without, offset i + 1. No two rows of D→0 are equal. All words
// from the used length on are 0. A relation may outlast what it was made from: `drop_relation` takes
// one out and gives back its words.
//
// No call asks anything of its caller. On a refusal nothing that was lent is altered.
//
// | no. | given exactly when                                          | by                      |
// |-----|-------------------------------------------------------------|-------------------------|
// | 1   | the file is under 4 bytes                                   | load, salvage           |
// | 2   | D is 0                                                      | load, salvage           |
// | 3   | N_0 is over 8,192                                           | load, salvage           |
// | 4   | N_D is over 4,096                                           | load, salvage           |
// | 5   | spare bits are set                                          | load                    |
// | 6   | the file's length is wrong                                  | load                    |
// | 7   | a vertex is N_0 or more; with the lowest such cell          | load                    |
// | 8   | a cell names a vertex twice; with the lowest such cell      | load                    |
// | 9   | bits after the last vertex are set                          | load                    |
// | 10  | the frame rule is broken                                    | all but load, ask_list, |
// |     |                                                             | salvage                 |
// | 11  | the row rule is broken; for row and find, the row's own     | all but load, ask_list, |
// |     | offsets alone; with where: a key and a position             | salvage, held_count     |
// | 12  | d or e is over D; for close, D is 1                         | make, ask, drop, row,   |
// |     |                                                             | find, close, box_of,    |
// |     |                                                             | plain                   |
// | 13  | the used length afterwards would pass the book's length     | load, make, ask         |
// | 14  | the relation is held already                                | make                    |
// | 15  | something that is needed is not held                        | make, euler, close,     |
// |     |                                                             | box_of, sheet           |
// | 16  | the relation is not held                                    | drop, row, find         |
// | 17  | i is N_d or more; for plain, by its own counts              | row, find, box_of,      |
// |     |                                                             | plain                   |
// | 18  | the byte buffer is shorter than the file to be written      | write, salvage, sheet   |
// | 19  | j is N_e or more; for plain, by its own counts              | find, plain             |
// | 20  | half a pair, over 16 pairs, or not one place a pair         | ask_list                |
// | 21  | a lent list is not one place a vertex, edge or face; for    | close, box_of,          |
// |     | the boxes, not axes times N_0 long; for salvage, it is      | whole_box, salvage,     |
// |     | shorter than 2 N_D; for sheet, the list of cells across is  | sheet                   |
// |     | not 3 N_D long, or a map is shorter than the rim needs      |                         |
// | 22  | a count is not from −32,768 to 32,767, nor 65,536           | close                   |
// | 23  | a cell has the vertices of an earlier one; with the lowest  | load, before 9          |
// |     | such cell                                                   |                         |
// | 24  | the relation is D→0                                         | drop                    |
// | 25  | d→0 has to be made, N_d is kept by another relation, and    | make, ask, before 13    |
// |     | the number of entities found differs                        |                         |
// | 26  | the axis count is not 2 or 3                                | box_of, whole_box,      |
// |     |                                                             | before 21               |
// | 27  | a coordinate is infinite or not a number                    | box_of, whole_box       |
// | 28  | the book is not a sheet; with why: 1 if D is not 2, before  | sheet                   |
// |     | 15; 2 and the lowest vertex in no cell, 3 and the lowest    |                         |
// |     | edge whose row of 1→2 has not one or two cells, 4 and the   |                         |
// |     | lowest cell whose row of 2→1 is not three edges that list   |                         |
// |     | it in 1→2                                                   |                         |
// | 29  | the rim has over 4,096 edges                                | sheet, before 18        |
//
// ask_list gives no other number as a call: what each of its asks is refused for stands among its answers.
// salvage gives none of 6, 7, 8 and 23 as a call: they stand in its list, beside the number of each cell that it drops: 6 where the cell is not whole in the file, 23 where it has the vertices of one kept before it, and of the four the first that applies.
#![tactic(auto)]

mod asks;
mod drops;
mod lists;
mod makes;

pub use asks::ask;
pub use boxes::Bounds;
pub use boxing::{box_of, whole_box};
pub use closing::close;
pub use drops::drop_relation;
pub use kinds::{Broken, Cell, NotSheet, Refusal, number_of};
pub use lists::ask_list;
pub use loading::load;
pub use makes::make;
pub use plain::plain;
pub use reading::{Found, euler, find, held_count, row, row_answer, write};
pub use salvaging::{Saved, salvage};
pub use sheets::{Rim, sheet};
