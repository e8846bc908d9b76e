//! Layouts: acts one after another, with the answer to each and the layout then.
use crate::layout_words::{are_numbers, is_number};
use roam_acts::{Act, read_act};
use roam_cells::Fault;
use roam_layout::{Changes, Layout, PaneSize, Rect, Way};
use std::alloc::Global;
use std::test::*;

// Walks with an empty line between them: a layout's size; then acts, the answer to each, and the layout then. That is the rectangles (a
// pane's number, row, column, rows, columns), the focus, and the status text without the spaces at its end. First come walks of random
// acts; then rows of 24 by 80, of 4 by 17, of the least and the most size, and of the ends of each range; then four panes, each of them
// closed.
const WALKS: &str = "\
size 37 66
close > E6 > 1: 1 1 36 66 | focus 1 |[1]
split down > ok > 1: 1 1 17 66, 2: 19 1 18 66 | focus 2 | 1 [2]
close > ok > 1: 1 1 36 66 | focus 1 |[1]
focus 2 > E4 > 1: 1 1 36 66 | focus 1 |[1]
close > E6 > 1: 1 1 36 66 | focus 1 |[1]
view 3 > ok > 1: 1 1 36 66 | focus 1 |[1] ^3
split right > ok > 1: 1 1 36 32, 2: 1 34 36 33 | focus 2 | 1 [2]
size 36 61 > ok > 1: 1 1 35 30, 2: 1 32 35 30 | focus 2 | 1 [2]

size 51 77
close > E6 > 1: 1 1 50 77 | focus 1 |[1]
split right > ok > 1: 1 1 50 38, 2: 1 40 50 38 | focus 2 | 1 [2]
next > ok > 1: 1 1 50 38, 2: 1 40 50 38 | focus 1 |[1] 2
next > ok > 1: 1 1 50 38, 2: 1 40 50 38 | focus 2 | 1 [2]
next > ok > 1: 1 1 50 38, 2: 1 40 50 38 | focus 1 |[1] 2
focus 3 > E4 > 1: 1 1 50 38, 2: 1 40 50 38 | focus 1 |[1] 2
focus 5 > E4 > 1: 1 1 50 38, 2: 1 40 50 38 | focus 1 |[1] 2
close > ok > 2: 1 1 50 77 | focus 2 |[2]
next > ok > 2: 1 1 50 77 | focus 2 |[2]
split down > ok > 2: 1 1 24 77, 1: 26 1 25 77 | focus 1 | 2 [1]
close > ok > 2: 1 1 50 77 | focus 2 |[2]
view 5 > ok > 2: 1 1 50 77 | focus 2 |[2] ^5
view 3 > ok > 2: 1 1 50 77 | focus 2 |[2] ^8

size 44 130
size 39 23 > ok > 1: 1 1 38 23 | focus 1 |[1]
split right > ok > 1: 1 1 38 11, 2: 1 13 38 11 | focus 2 | 1 [2]
size 13 32 > ok > 1: 1 1 12 15, 2: 1 17 12 16 | focus 2 | 1 [2]
grow 10 > ok > 1: 1 1 12 5, 2: 1 7 12 26 | focus 2 | 1 [2]
close > ok > 1: 1 1 12 32 | focus 1 |[1]
view 4 > ok > 1: 1 1 12 32 | focus 1 |[1] ^4
grow 7 > E6 > 1: 1 1 12 32 | focus 1 |[1] ^4

size 30 22
split right > ok > 1: 1 1 29 10, 2: 1 12 29 11 | focus 2 | 1 [2]
split down > ok > 1: 1 1 29 10, 2: 1 12 14 11, 3: 16 12 14 11 | focus 3 | 1  2 [3]
next > ok > 1: 1 1 29 10, 2: 1 12 14 11, 3: 16 12 14 11 | focus 1 |[1] 2  3
view 4 > ok > 1: 1 1 29 10, 2: 1 12 14 11, 3: 16 12 14 11 | focus 1 |[1] 2  3  ^4
split down > ok > 1: 1 1 14 10, 4: 16 1 14 10, 2: 1 12 14 11, 3: 16 12 14 11 | focus 4 | 1 [4] 2  3
close > ok > 1: 1 1 29 10, 2: 1 12 14 11, 3: 16 12 14 11 | focus 1 |[1] 2  3  ^4
split right > ok > 1: 1 1 29 4, 4: 1 6 29 5, 2: 1 12 14 11, 3: 16 12 14 11 | focus 4 | 1 [4] 2  3
split down > ok > 1: 1 1 29 4, 4: 1 6 14 5, 5: 16 6 14 5, 2: 1 12 14 11, 3: 16 12 14 11 | focus 5 | 1  4 [5] 2  3

size 58 56
view -2 > ok > 1: 1 1 57 56 | focus 1 |[1]
size 39 39 > ok > 1: 1 1 38 39 | focus 1 |[1]
grow -6 > E6 > 1: 1 1 38 39 | focus 1 |[1]
split right > ok > 1: 1 1 38 19, 2: 1 21 38 19 | focus 2 | 1 [2]

size 52 41
grow -7 > E6 > 1: 1 1 51 41 | focus 1 |[1]
split right > ok > 1: 1 1 51 20, 2: 1 22 51 20 | focus 2 | 1 [2]
size 18 29 > ok > 1: 1 1 17 14, 2: 1 16 17 14 | focus 2 | 1 [2]
split right > ok > 1: 1 1 17 14, 2: 1 16 17 6, 3: 1 23 17 7 | focus 3 | 1  2 [3]
focus 2 > ok > 1: 1 1 17 14, 2: 1 16 17 6, 3: 1 23 17 7 | focus 2 | 1 [2] 3
grow 4 > E3 > 1: 1 1 17 14, 2: 1 16 17 6, 3: 1 23 17 7 | focus 2 | 1 [2] 3

size 46 60
next > ok > 1: 1 1 45 60 | focus 1 |[1]
split right > ok > 1: 1 1 45 29, 2: 1 31 45 30 | focus 2 | 1 [2]
view 2 > ok > 1: 1 1 45 29, 2: 1 31 45 30 | focus 2 | 1 [2] ^2
split down > ok > 1: 1 1 45 29, 2: 1 31 22 30, 3: 24 31 22 30 | focus 3 | 1  2 [3]
close > ok > 1: 1 1 45 29, 2: 1 31 45 30 | focus 2 | 1 [2] ^2
view -2 > ok > 1: 1 1 45 29, 2: 1 31 45 30 | focus 2 | 1 [2]
next > ok > 1: 1 1 45 29, 2: 1 31 45 30 | focus 1 |[1] 2
split down > ok > 1: 1 1 22 29, 3: 24 1 22 29, 2: 1 31 45 30 | focus 3 | 1 [3] 2
next > ok > 1: 1 1 22 29, 3: 24 1 22 29, 2: 1 31 45 30 | focus 2 | 1  3 [2]
focus 7 > E4 > 1: 1 1 22 29, 3: 24 1 22 29, 2: 1 31 45 30 | focus 2 | 1  3 [2]
split right > ok > 1: 1 1 22 29, 3: 24 1 22 29, 2: 1 31 45 14, 4: 1 46 45 15 | focus 4 | 1  3  2 [4]
close > ok > 1: 1 1 22 29, 3: 24 1 22 29, 2: 1 31 45 30 | focus 2 | 1  3 [2]

size 52 29
grow -10 > E6 > 1: 1 1 51 29 | focus 1 |[1]
grow 6 > E6 > 1: 1 1 51 29 | focus 1 |[1]
split down > ok > 1: 1 1 25 29, 2: 27 1 25 29 | focus 2 | 1 [2]
focus 2 > ok > 1: 1 1 25 29, 2: 27 1 25 29 | focus 2 | 1 [2]
grow -7 > ok > 1: 1 1 32 29, 2: 34 1 18 29 | focus 2 | 1 [2]
split down > ok > 1: 1 1 32 29, 2: 34 1 8 29, 3: 43 1 9 29 | focus 3 | 1  2 [3]
split right > ok > 1: 1 1 32 29, 2: 34 1 8 29, 3: 43 1 9 14, 4: 43 16 9 14 | focus 4 | 1  2  3 [4]

size 23 23
split right > ok > 1: 1 1 22 11, 2: 1 13 22 11 | focus 2 | 1 [2]
size 23 33 > ok > 1: 1 1 22 16, 2: 1 18 22 16 | focus 2 | 1 [2]
focus 5 > E4 > 1: 1 1 22 16, 2: 1 18 22 16 | focus 2 | 1 [2]
close > ok > 1: 1 1 22 33 | focus 1 |[1]
focus 3 > E4 > 1: 1 1 22 33 | focus 1 |[1]
grow -7 > E6 > 1: 1 1 22 33 | focus 1 |[1]
split down > ok > 1: 1 1 10 33, 2: 12 1 11 33 | focus 2 | 1 [2]
grow 9 > E3 > 1: 1 1 10 33, 2: 12 1 11 33 | focus 2 | 1 [2]
view 0 > ok > 1: 1 1 10 33, 2: 12 1 11 33 | focus 2 | 1 [2]
grow 7 > ok > 1: 1 1 3 33, 2: 5 1 18 33 | focus 2 | 1 [2]
split right > ok > 1: 1 1 3 33, 2: 5 1 18 16, 3: 5 18 18 16 | focus 3 | 1  2 [3]
split down > ok > 1: 1 1 3 33, 2: 5 1 18 16, 3: 5 18 8 16, 4: 14 18 9 16 | focus 4 | 1  2  3 [4]
split right > ok > 1: 1 1 3 33, 2: 5 1 18 16, 3: 5 18 8 16, 4: 14 18 9 7, 5: 14 26 9 8 | focus 5 | 1  2  3  4 [5]
split right > E3 > 1: 1 1 3 33, 2: 5 1 18 16, 3: 5 18 8 16, 4: 14 18 9 7, 5: 14 26 9 8 | focus 5 | 1  2  3  4 [5]
view 5 > ok > 1: 1 1 3 33, 2: 5 1 18 16, 3: 5 18 8 16, 4: 14 18 9 7, 5: 14 26 9 8 | focus 5 | 1  2  3  4 [5] ^5

size 31 30
split down > ok > 1: 1 1 14 30, 2: 16 1 15 30 | focus 2 | 1 [2]
close > ok > 1: 1 1 30 30 | focus 1 |[1]
split right > ok > 1: 1 1 30 14, 2: 1 16 30 15 | focus 2 | 1 [2]
split down > ok > 1: 1 1 30 14, 2: 1 16 14 15, 3: 16 16 15 15 | focus 3 | 1  2 [3]
grow 1 > ok > 1: 1 1 30 14, 2: 1 16 13 15, 3: 15 16 16 15 | focus 3 | 1  2 [3]
split down > ok > 1: 1 1 30 14, 2: 1 16 13 15, 3: 15 16 7 15, 4: 23 16 8 15 | focus 4 | 1  2  3 [4]
close > ok > 1: 1 1 30 14, 2: 1 16 13 15, 3: 15 16 16 15 | focus 3 | 1  2 [3]
split down > ok > 1: 1 1 30 14, 2: 1 16 13 15, 3: 15 16 7 15, 4: 23 16 8 15 | focus 4 | 1  2  3 [4]
split down > ok > 1: 1 1 30 14, 2: 1 16 13 15, 3: 15 16 7 15, 4: 23 16 3 15, 5: 27 16 4 15 | focus 5 | 1  2  3  4 [5]
close > ok > 1: 1 1 30 14, 2: 1 16 13 15, 3: 15 16 7 15, 4: 23 16 8 15 | focus 4 | 1  2  3 [4]
view 5 > ok > 1: 1 1 30 14, 2: 1 16 13 15, 3: 15 16 7 15, 4: 23 16 8 15 | focus 4 | 1  2  3 [4] ^5
view -1 > ok > 1: 1 1 30 14, 2: 1 16 13 15, 3: 15 16 7 15, 4: 23 16 8 15 | focus 4 | 1  2  3 [4] ^4
view 5 > ok > 1: 1 1 30 14, 2: 1 16 13 15, 3: 15 16 7 15, 4: 23 16 8 15 | focus 4 | 1  2  3 [4] ^9
view 2 > ok > 1: 1 1 30 14, 2: 1 16 13 15, 3: 15 16 7 15, 4: 23 16 8 15 | focus 4 | 1  2  3 [4] ^11
focus 2 > ok > 1: 1 1 30 14, 2: 1 16 13 15, 3: 15 16 7 15, 4: 23 16 8 15 | focus 2 | 1 [2] 3  4
focus 8 > E4 > 1: 1 1 30 14, 2: 1 16 13 15, 3: 15 16 7 15, 4: 23 16 8 15 | focus 2 | 1 [2] 3  4
focus 5 > E4 > 1: 1 1 30 14, 2: 1 16 13 15, 3: 15 16 7 15, 4: 23 16 8 15 | focus 2 | 1 [2] 3  4
split down > ok > 1: 1 1 30 14, 2: 1 16 6 15, 5: 8 16 6 15, 3: 15 16 7 15, 4: 23 16 8 15 | focus 5 | 1  2 [5] 3  4

size 32 15
split right > ok > 1: 1 1 31 7, 2: 1 9 31 7 | focus 2 | 1 [2]
split down > ok > 1: 1 1 31 7, 2: 1 9 15 7, 3: 17 9 15 7 | focus 3 | 1  2 [3]
size 9 50 > ok > 1: 1 1 8 24, 2: 1 26 3 25, 3: 5 26 4 25 | focus 3 | 1  2 [3]
close > ok > 1: 1 1 8 24, 2: 1 26 8 25 | focus 2 | 1 [2]
split down > ok > 1: 1 1 8 24, 2: 1 26 3 25, 3: 5 26 4 25 | focus 3 | 1  2 [3]
view 1 > ok > 1: 1 1 8 24, 2: 1 26 3 25, 3: 5 26 4 25 | focus 3 | 1  2 [3] ^1
split down > E3 > 1: 1 1 8 24, 2: 1 26 3 25, 3: 5 26 4 25 | focus 3 | 1  2 [3] ^1
close > ok > 1: 1 1 8 24, 2: 1 26 8 25 | focus 2 | 1 [2]
close > ok > 1: 1 1 8 50 | focus 1 |[1]
focus 8 > E4 > 1: 1 1 8 50 | focus 1 |[1]
grow 5 > E6 > 1: 1 1 8 50 | focus 1 |[1]
split right > ok > 1: 1 1 8 24, 2: 1 26 8 25 | focus 2 | 1 [2]

size 49 13
focus 2 > E4 > 1: 1 1 48 13 | focus 1 |[1]
split right > ok > 1: 1 1 48 6, 2: 1 8 48 6 | focus 2 | 1 [2]
size 20 66 > ok > 1: 1 1 19 32, 2: 1 34 19 33 | focus 2 | 1 [2]
view -2 > ok > 1: 1 1 19 32, 2: 1 34 19 33 | focus 2 | 1 [2]
split down > ok > 1: 1 1 19 32, 2: 1 34 9 33, 3: 11 34 9 33 | focus 3 | 1  2 [3]

size 24 80
split right > ok > 1: 1 1 23 39, 2: 1 41 23 40 | focus 2 | 1 [2]
split down > ok > 1: 1 1 23 39, 2: 1 41 11 40, 3: 13 41 11 40 | focus 3 | 1  2 [3]
grow 3 > ok > 1: 1 1 23 39, 2: 1 41 8 40, 3: 10 41 14 40 | focus 3 | 1  2 [3]
close > ok > 1: 1 1 23 39, 2: 1 41 23 40 | focus 2 | 1 [2]

size 4 17
split right > ok > 1: 1 1 3 8, 2: 1 10 3 8 | focus 2 | 1 [2]
split right > E3 > 1: 1 1 3 8, 2: 1 10 3 8 | focus 2 | 1 [2]
split down > E3 > 1: 1 1 3 8, 2: 1 10 3 8 | focus 2 | 1 [2]
view 1 > ok > 1: 1 1 3 8, 2: 1 10 3 8 | focus 2 | 1 [2] ^1
size 4 9 > ok > 1: 1 1 3 4, 2: 1 6 3 4 | focus 2 | 1 [2] ^1
size 4 8 > E3 > 1: 1 1 3 4, 2: 1 6 3 4 | focus 2 | 1 [2] ^1
size 4 7 > E2 > 1: 1 1 3 4, 2: 1 6 3 4 | focus 2 | 1 [2] ^1
size 4 17 > ok > 1: 1 1 3 8, 2: 1 10 3 8 | focus 2 | 1 [2] ^1
close > ok > 1: 1 1 3 17 | focus 1 |[1]
close > E6 > 1: 1 1 3 17 | focus 1 |[1]
split right > ok > 1: 1 1 3 8, 2: 1 10 3 8 | focus 2 | 1 [2]

size 4 8
split right > E3 > 1: 1 1 3 8 | focus 1 |[1]
split down > E3 > 1: 1 1 3 8 | focus 1 |[1]
grow 0 > E6 > 1: 1 1 3 8 | focus 1 |[1]
close > E6 > 1: 1 1 3 8 | focus 1 |[1]
focus 2 > E4 > 1: 1 1 3 8 | focus 1 |[1]
focus 1 > ok > 1: 1 1 3 8 | focus 1 |[1]
next > ok > 1: 1 1 3 8 | focus 1 |[1]
size 3 8 > E2 > 1: 1 1 3 8 | focus 1 |[1]
size 4 7 > E2 > 1: 1 1 3 8 | focus 1 |[1]
size 201 8 > E2 > 1: 1 1 3 8 | focus 1 |[1]
size 4 501 > E2 > 1: 1 1 3 8 | focus 1 |[1]
size 0 0 > E2 > 1: 1 1 3 8 | focus 1 |[1]
view -1 > ok > 1: 1 1 3 8 | focus 1 |[1]
view 499 > ok > 1: 1 1 3 8 | focus 1 |[1] ^499
view 500 > ok > 1: 1 1 3 8 | focus 1 |[1] ^500
view -500 > ok > 1: 1 1 3 8 | focus 1 |[1]
size 200 500 > ok > 1: 1 1 199 500 | focus 1 |[1]

size 6 8
split down > ok > 1: 1 1 2 8, 2: 4 1 2 8 | focus 2 | 1 [2]
view 5 > ok > 1: 1 1 2 8, 2: 4 1 2 8 | focus 2 | 1 [2] ^
size 5 8 > E3 > 1: 1 1 2 8, 2: 4 1 2 8 | focus 2 | 1 [2] ^
size 6 17 > ok > 1: 1 1 2 17, 2: 4 1 2 17 | focus 2 | 1 [2] ^5

size 24 80
split right > ok > 1: 1 1 23 39, 2: 1 41 23 40 | focus 2 | 1 [2]
grow 35 > ok > 1: 1 1 23 4, 2: 1 6 23 75 | focus 2 | 1 [2]
grow 1 > E3 > 1: 1 1 23 4, 2: 1 6 23 75 | focus 2 | 1 [2]
grow -71 > ok > 1: 1 1 23 75, 2: 1 77 23 4 | focus 2 | 1 [2]
grow -1 > E3 > 1: 1 1 23 75, 2: 1 77 23 4 | focus 2 | 1 [2]
focus 1 > ok > 1: 1 1 23 75, 2: 1 77 23 4 | focus 1 |[1] 2
grow 1 > E3 > 1: 1 1 23 75, 2: 1 77 23 4 | focus 1 |[1] 2
grow -71 > ok > 1: 1 1 23 4, 2: 1 6 23 75 | focus 1 |[1] 2
grow -1 > E3 > 1: 1 1 23 4, 2: 1 6 23 75 | focus 1 |[1] 2

size 24 80
split down > ok > 1: 1 1 11 80, 2: 13 1 11 80 | focus 2 | 1 [2]
grow 9 > ok > 1: 1 1 2 80, 2: 4 1 20 80 | focus 2 | 1 [2]
grow 1 > E3 > 1: 1 1 2 80, 2: 4 1 20 80 | focus 2 | 1 [2]
grow -18 > ok > 1: 1 1 20 80, 2: 22 1 2 80 | focus 2 | 1 [2]
grow -1 > E3 > 1: 1 1 20 80, 2: 22 1 2 80 | focus 2 | 1 [2]

size 24 80
split right > ok > 1: 1 1 23 39, 2: 1 41 23 40 | focus 2 | 1 [2]
grow -35 > ok > 1: 1 1 23 74, 2: 1 76 23 5 | focus 2 | 1 [2]
size 24 40 > ok > 1: 1 1 23 35, 2: 1 37 23 4 | focus 2 | 1 [2]
size 24 80 > ok > 1: 1 1 23 74, 2: 1 76 23 5 | focus 2 | 1 [2]
size 24 40 > ok > 1: 1 1 23 35, 2: 1 37 23 4 | focus 2 | 1 [2]
grow 0 > ok > 1: 1 1 23 35, 2: 1 37 23 4 | focus 2 | 1 [2]
size 24 80 > ok > 1: 1 1 23 55, 2: 1 57 23 24 | focus 2 | 1 [2]

size 24 40
split right > ok > 1: 1 1 23 19, 2: 1 21 23 20 | focus 2 | 1 [2]
split down > ok > 1: 1 1 23 19, 2: 1 21 11 20, 3: 13 21 11 20 | focus 3 | 1  2 [3]
focus 1 > ok > 1: 1 1 23 19, 2: 1 21 11 20, 3: 13 21 11 20 | focus 1 |[1] 2  3
split down > ok > 1: 1 1 11 19, 4: 13 1 11 19, 2: 1 21 11 20, 3: 13 21 11 20 | focus 4 | 1 [4] 2  3
next > ok > 1: 1 1 11 19, 4: 13 1 11 19, 2: 1 21 11 20, 3: 13 21 11 20 | focus 2 | 1  4 [2] 3
next > ok > 1: 1 1 11 19, 4: 13 1 11 19, 2: 1 21 11 20, 3: 13 21 11 20 | focus 3 | 1  4  2 [3]
next > ok > 1: 1 1 11 19, 4: 13 1 11 19, 2: 1 21 11 20, 3: 13 21 11 20 | focus 1 |[1] 4  2  3
next > ok > 1: 1 1 11 19, 4: 13 1 11 19, 2: 1 21 11 20, 3: 13 21 11 20 | focus 4 | 1 [4] 2  3
close > ok > 1: 1 1 23 19, 2: 1 21 11 20, 3: 13 21 11 20 | focus 1 |[1] 2  3

size 24 40
split right > ok > 1: 1 1 23 19, 2: 1 21 23 20 | focus 2 | 1 [2]
split down > ok > 1: 1 1 23 19, 2: 1 21 11 20, 3: 13 21 11 20 | focus 3 | 1  2 [3]
focus 1 > ok > 1: 1 1 23 19, 2: 1 21 11 20, 3: 13 21 11 20 | focus 1 |[1] 2  3
split down > ok > 1: 1 1 11 19, 4: 13 1 11 19, 2: 1 21 11 20, 3: 13 21 11 20 | focus 4 | 1 [4] 2  3
focus 1 > ok > 1: 1 1 11 19, 4: 13 1 11 19, 2: 1 21 11 20, 3: 13 21 11 20 | focus 1 |[1] 4  2  3
close > ok > 4: 1 1 23 19, 2: 1 21 11 20, 3: 13 21 11 20 | focus 4 |[4] 2  3

size 24 40
split right > ok > 1: 1 1 23 19, 2: 1 21 23 20 | focus 2 | 1 [2]
split down > ok > 1: 1 1 23 19, 2: 1 21 11 20, 3: 13 21 11 20 | focus 3 | 1  2 [3]
focus 1 > ok > 1: 1 1 23 19, 2: 1 21 11 20, 3: 13 21 11 20 | focus 1 |[1] 2  3
split down > ok > 1: 1 1 11 19, 4: 13 1 11 19, 2: 1 21 11 20, 3: 13 21 11 20 | focus 4 | 1 [4] 2  3
focus 2 > ok > 1: 1 1 11 19, 4: 13 1 11 19, 2: 1 21 11 20, 3: 13 21 11 20 | focus 2 | 1  4 [2] 3
close > ok > 1: 1 1 11 19, 4: 13 1 11 19, 3: 1 21 23 20 | focus 3 | 1  4 [3]

size 24 40
split right > ok > 1: 1 1 23 19, 2: 1 21 23 20 | focus 2 | 1 [2]
split down > ok > 1: 1 1 23 19, 2: 1 21 11 20, 3: 13 21 11 20 | focus 3 | 1  2 [3]
focus 1 > ok > 1: 1 1 23 19, 2: 1 21 11 20, 3: 13 21 11 20 | focus 1 |[1] 2  3
split down > ok > 1: 1 1 11 19, 4: 13 1 11 19, 2: 1 21 11 20, 3: 13 21 11 20 | focus 4 | 1 [4] 2  3
focus 3 > ok > 1: 1 1 11 19, 4: 13 1 11 19, 2: 1 21 11 20, 3: 13 21 11 20 | focus 3 | 1  4  2 [3]
close > ok > 1: 1 1 11 19, 4: 13 1 11 19, 2: 1 21 23 20 | focus 2 | 1  4 [2]";

fn answer_of(fault: Fault) -> &'static str {
    match fault {
        Fault::BadSize => "E2",
        Fault::TooSmall => "E3",
        Fault::NoPane => "E4",
        Fault::PanesFull => "E5",
        Fault::LastPane => "E6",
        _ => "other",
    }
}

// Returns true if a pane's rectangle is that of a text.
fn is_rect(pane: u8, rect: Rect, text: &str) -> bool {
    let (number, place) = text.split_once(": ").unwrap_or((text, ""));
    is_number(u16::from(pane), number)
        && are_numbers(&[rect.row, rect.col, rect.rows, rect.cols], place)
}

fn are_rects(rects: &[(u8, Rect)], text: &str) -> bool {
    let mut texts = text.split(", ");
    for (pane, rect) in rects {
        if !is_rect(*pane, *rect, texts.next().unwrap_or("")) {
            return false;
        }
    }
    texts.next().is_none()
}

// Returns true if the status text is as long as a row, and this one except for spaces at its end.
fn is_status(layout: &Layout, status: &[u8], text: &str) -> bool {
    status.len() == usize::from(layout.cols()) && status.trim_ascii_end() == text.as_bytes()
}

// Returns true if a layout has these rectangles, this focus and this status text.
fn is_told(alloc: Global, layout: &Layout, told: &str) -> bool {
    let (rects, rest) = told.split_once(" | focus ").unwrap_or((told, ""));
    let (focus, text) = rest.split_once(" |").unwrap_or((rest, ""));
    are_rects(layout.rects(), rects)
        && is_number(u16::from(layout.focus()), focus)
        && matches!(layout.status(alloc), Ok(status) if is_status(layout, &status, text))
}

fn answer_to(alloc: Global, layout: &mut Layout, words: &str) -> &'static str {
    let Ok(act) = read_act(words.as_bytes()) else {
        return "no act";
    };
    match layout.apply(alloc, &act) {
        Ok(_) => "ok",
        Err(fault) => answer_of(fault),
    }
}

// Returns true if an act has this answer, and the layout is this one then.
fn steps(alloc: Global, layout: &mut Layout, line: &str) -> bool {
    let (words, rest) = line.split_once(" > ").unwrap_or((line, ""));
    let (answer, told) = rest.split_once(" > ").unwrap_or((rest, ""));
    answer_to(alloc, layout, words) == answer && is_told(alloc, layout, told)
}

fn walks(alloc: Global, layout: &mut Layout, lines: &str) -> bool {
    for line in lines.lines() {
        if !steps(alloc, layout, line) {
            return false;
        }
    }
    true
}

fn new_layout(alloc: Global, words: &str) -> Result<Layout, Fault> {
    match read_act(words.as_bytes())? {
        Act::Size(rows, cols) => Layout::new(alloc, rows, cols),
        _ => Err(Fault::BadAct),
    }
}

fn goes(alloc: Global, walk: &str) -> bool {
    let (size, lines) = walk.split_once('\n').unwrap_or((walk, ""));
    match new_layout(alloc, size) {
        Ok(mut layout) => walks(alloc, &mut layout, lines),
        Err(_) => false,
    }
}

#[test]
fn walks_go_as_they_are_told(rt: HostRuntime) {
    for walk in WALKS.split("\n\n") {
        assert!(rt; goes(rt.alloc(), walk), "{walk}");
    }
}

// Acts on a layout of 24 by 80, and then the closed pane, the new one and the sized ones of each (a pane's number, rows, columns).
const CHANGES: &str = "\
split right > 0 > 2 23 40 > 1 23 39
split down > 0 > 3 11 40 > 2 11 40
grow 3 > 0 > none > 2 8 40, 3 14 40
grow 0 > 0 > none > 
next > 0 > none > 
view 7 > 0 > none > 
size 24 60 > 0 > none > 1 23 29, 2 8 30, 3 14 30
close > 1 > none > 2 8 60, 3 14 60
close > 2 > none > 3 23 60
key up > 0 > none > ";

fn is_size(size: &PaneSize, text: &str) -> bool {
    are_numbers(&[u16::from(size.pane), size.rows, size.cols], text)
}

fn is_made(made: Option<PaneSize>, text: &str) -> bool {
    match made {
        None => text == "none",
        Some(size) => is_size(&size, text),
    }
}

fn are_sized(sized: &[PaneSize], text: &str) -> bool {
    if sized.is_empty() {
        return text.is_empty();
    }
    let mut texts = text.split(", ");
    for size in sized {
        if !is_size(size, texts.next().unwrap_or("")) {
            return false;
        }
    }
    texts.next().is_none()
}

fn are_changes(changes: &Changes, text: &str) -> bool {
    let (closed, rest) = text.split_once(" > ").unwrap_or((text, ""));
    let (made, sized) = rest.split_once(" > ").unwrap_or((rest, ""));
    is_number(u16::from(changes.closed.unwrap_or(0)), closed)
        && is_made(changes.made, made)
        && are_sized(&changes.sized, sized)
}

// Returns true if an act changes the panes so.
fn changes(alloc: Global, layout: &mut Layout, line: &str) -> bool {
    let (words, text) = line.split_once(" > ").unwrap_or((line, ""));
    let Ok(act) = read_act(words.as_bytes()) else {
        return false;
    };
    matches!(layout.apply(alloc, &act), Ok(changes) if are_changes(&changes, text))
}

// The first act that changes the panes otherwise, or nothing.
fn first_other(alloc: Global, layout: &mut Layout) -> &'static str {
    for line in CHANGES.lines() {
        if !changes(alloc, layout, line) {
            return line;
        }
    }
    ""
}

fn first_other_change(alloc: Global) -> &'static str {
    match Layout::new(alloc, 24, 80) {
        Ok(mut layout) => first_other(alloc, &mut layout),
        Err(_) => "no memory",
    }
}

#[test]
fn changes_are_told(rt: HostRuntime) {
    let other = first_other_change(rt.alloc());
    assert!(rt; other.is_empty(), "{other}");
}

fn has(rect: Rect, row: u16, col: u16) -> bool {
    rect.row <= row
        && u32::from(row) < u32::from(rect.row) + u32::from(rect.rows)
        && rect.col <= col
        && u32::from(col) < u32::from(rect.col) + u32::from(rect.cols)
}

// Returns true if exactly one pane or border has a place.
fn has_one(layout: &Layout, row: u16, col: u16) -> bool {
    let mut owners = 0u16;
    for (_, rect) in layout.rects() {
        owners = owners.saturating_add(u16::from(has(*rect, row, col)));
    }
    for (_, rect) in layout.borders() {
        owners = owners.saturating_add(u16::from(has(*rect, row, col)));
    }
    owners == 1
}

fn is_covered(layout: &Layout, rows: u16, cols: u16) -> bool {
    for row in 1..rows {
        for col in 1..=cols {
            if !has_one(layout, row, col) {
                return false;
            }
        }
    }
    true
}

// Acts that are done again and again.
const SEQUENCE: &str = "\
split right
split down
next
grow 2
split down
focus 1
split right
grow -3
next
next
split right
close
grow 1
split down
focus 2
split right
grow -1
next
close";

// Returns true if each place has one owner after an act, also after a refused one.
fn stays_covered(alloc: Global, layout: &mut Layout, line: &str) -> bool {
    let Ok(act) = read_act(line.as_bytes()) else {
        return false;
    };
    if let Err(Fault::OutOfMemory) = layout.apply(alloc, &act) {
        return false;
    }
    is_covered(layout, 20, 50)
}

// Returns true if each place of 20 by 50 has one owner after each act, in 16 rounds.
fn covers_all(alloc: Global, layout: &mut Layout) -> bool {
    for _ in 0..16u8 {
        for line in SEQUENCE.lines() {
            if !stays_covered(alloc, layout, line) {
                return false;
            }
        }
    }
    layout.rects().len() > 3
}

// Returns true if a copy of two panes has its views, focus and border.
fn is_of_two(copy: &Layout) -> bool {
    let border = Rect {
        row: 12,
        col: 1,
        rows: 1,
        cols: 80,
    };
    (copy.view(1), copy.view(2), copy.view(3)) == (Some(12), Some(0), None)
        && copy.focus() == 2
        && copy.borders() == [(Way::Down, border)].as_slice()
}

// Returns true if a copy stays as it is while the layout goes on.
fn lends_a_copy(alloc: Global, layout: &mut Layout) -> bool {
    let done = layout.apply(alloc, &Act::View(12)).is_ok()
        && layout.apply(alloc, &Act::SplitDown).is_ok();
    let copied = layout.copy(alloc);
    let closed = layout.apply(alloc, &Act::Close).is_ok();
    done && closed && layout.view(2) == None && matches!(&copied, Ok(copy) if is_of_two(copy))
}

/// The trial of a layout.
#[derive(Clone, Copy)]
enum Trial {
    Covers,
    Copies,
}

fn tries(alloc: Global, layout: &mut Layout, trial: Trial) -> bool {
    match trial {
        Trial::Covers => covers_all(alloc, layout),
        Trial::Copies => lends_a_copy(alloc, layout),
    }
}

fn is_tried(alloc: Global, rows: u16, cols: u16, trial: Trial) -> bool {
    match Layout::new(alloc, rows, cols) {
        Ok(mut layout) => tries(alloc, &mut layout, trial),
        Err(_) => false,
    }
}

#[test]
fn each_place_has_one_owner_and_copies_are_lent(rt: HostRuntime) {
    assert!(rt; is_tried(rt.alloc(), 20, 50, Trial::Covers), "owners");
    assert!(rt; is_tried(rt.alloc(), 24, 80, Trial::Copies), "copies");
}
