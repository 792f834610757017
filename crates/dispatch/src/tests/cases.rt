//! Instances, a script, and how its runs may end.

/// Four customers and two vehicles.
pub(crate) const A: &str =
    "A\nVEHICLE\nNUMBER CAPACITY\n2 10\nCUSTOMER\nCUST NO.\n0 0 0 0 0 100 0\n1 2 2 4 0 50 0\n2 6 6 3 0 50 0\n3 10 10 3 0 14 0\n4 3 4 5 0 50 0\n";

/// Three customers in a line, and one vehicle.
pub(crate) const B: &str =
    "B\nVEHICLE\nNUMBER CAPACITY\n1 10\nCUSTOMER\nCUST NO.\n0 0 0 0 0 1000 0\n1 3 0 1 0 1000 0\n2 6 0 1 0 1000 0\n3 9 0 1 0 1000 0\n";

/// The customers of the line in the order 2, 1, 3, where workers may move them.
pub(crate) const GRANTED: &str = "\
1 grant root move vehicle 1 1\n\
1 grant root move customer 1 3\n\
1 grant worker move vehicle 1 1\n\
1 grant worker move customer 1 3\n\
1 insert 2 1 1 0\n\
1 insert 1 1 2 1\n\
1 insert 3 1 3 2\n";

/// What two workers of one round each may come to on the customers of the line: the first commits, and the other's move is then stale, or
/// no move counts any more.
pub(crate) const CROSSED: [&str; 4] = [
    "worker 1 tried 1 committed 1 denied 0 refused 0\nworker 2 tried 1 committed 0 denied 1 refused 0\nversion 4\n",
    "worker 1 tried 1 committed 0 denied 1 refused 0\nworker 2 tried 1 committed 1 denied 0 refused 0\nversion 4\n",
    "worker 1 tried 1 committed 1 denied 0 refused 0\nworker 2 tried 0 committed 0 denied 0 refused 0\nversion 4\n",
    "worker 1 tried 0 committed 0 denied 0 refused 0\nworker 2 tried 1 committed 1 denied 0 refused 0\nversion 4\n",
];
