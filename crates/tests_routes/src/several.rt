use crate::machines::{check_table, new_machine};
use search_routes::Machine;
use std::alloc::Global;
use std::process::Abort;

const STORED: &str = r#"PATCH~/indexes/m/settings~{"filterableAttributes":["genres","year"],
"sortableAttributes":["year"]}~202 {"indexUid":"m","status":"enqueued","taskUid":0,"type":"settingsUpdate"}

POST~/indexes/m/documents~[{"id":1,"title":"Dark City","genres":["Drama","Mystery"],"year":1998},{"id":2,
"title":"Dark Knight Rises","genres":["Action","drama"],"year":2012},{"id":3,"title":"Drive",
"genres":["Crime"],"year":2011}]~202 {"indexUid":"m","status":"enqueued","taskUid":1,
"type":"documentAdditionOrUpdate"}

POST~/indexes/n/documents~[{"id":"a","name":"Dark"}]~202 {"indexUid":"n","status":"enqueued","taskUid":2,
"type":"documentAdditionOrUpdate"}

GET~/health~~200 {"status":"available"}

GET~/health~~200 {"status":"available"}

GET~/health~~200 {"status":"available"}"#;

const SEVERAL_SEARCHES: &str = r#"POST~/multi-search~{"queries":[]}~200 {"results":[]}

POST~/multi-search~{"queries":[{"indexUid":"m","q":"dark","limit":1,
"attributesToRetrieve":["id"]}]}~200 {"results":[{"estimatedTotalHits":2,"hits":[{"id":1}],"indexUid":"m",
"limit":1,"offset":0,"query":"dark"}]}

POST~/multi-search~{"queries":[{"indexUid":"m","q":"dark","attributesToRetrieve":["id"]},{"indexUid":"m",
"q":"dark","attributesToRetrieve":["id"]}]}~200 {"results":[{"estimatedTotalHits":2,"hits":[{"id":1},
{"id":2}],"indexUid":"m","limit":20,"offset":0,"query":"dark"},{"estimatedTotalHits":2,"hits":[{"id":1},
{"id":2}],"indexUid":"m","limit":20,"offset":0,"query":"dark"}]}

POST~/multi-search~{"queries":[{"indexUid":"n","q":"dark"},{"indexUid":"m","page":1,"hitsPerPage":2,
"attributesToRetrieve":["title"]},{"indexUid":"n","limit":0}]}~200 {"results":[{"estimatedTotalHits":1,
"hits":[{"id":"a","name":"Dark"}],"indexUid":"n","limit":20,"offset":0,"query":"dark"},
{"hits":[{"title":"Dark City"},{"title":"Dark Knight Rises"}],"hitsPerPage":2,"indexUid":"m","page":1,
"query":"","totalHits":3,"totalPages":2},{"estimatedTotalHits":1,"hits":[],"indexUid":"n","limit":0,
"offset":0,"query":""}]}

POST~/multi-search~{"queries":[{"indexUid":"m","limit":0,"facets":["genres","year"]},{"indexUid":"m",
"page":2,"hitsPerPage":1,"facets":["year"],"sort":["year:desc"],
"attributesToRetrieve":["id"]}]}~200 {"results":[{"estimatedTotalHits":3,
"facetDistribution":{"genres":{"Action":1,"Crime":1,"Drama":2,"Mystery":1},"year":{"1998":1,"2011":1,
"2012":1}},"facetStats":{"year":{"max":2012,"min":1998}},"hits":[],"indexUid":"m","limit":0,"offset":0,
"query":""},{"facetDistribution":{"year":{"1998":1,"2011":1,"2012":1}},"facetStats":{"year":{"max":2012,
"min":1998}},"hits":[{"id":3}],"hitsPerPage":1,"indexUid":"m","page":2,"query":"","totalHits":3,
"totalPages":3}]}

POST~/multi-search~{"queries":[{"indexUid":"m","q":"city","showCosts":true,"attributesToRetrieve":["id"]},
{"indexUid":"n","offset":1}]}~200 {"results":[{"estimatedTotalHits":1,"hits":[{"_costs":[0,0,2,1,2,0],
"id":1}],"indexUid":"m","limit":20,"offset":0,"query":"city"},{"estimatedTotalHits":1,"hits":[],
"indexUid":"n","limit":20,"offset":1,"query":""}]}

POST~/multi-search~{"queries":[{"indexUid":"z"},{"indexUid":"m"}]}~404 {"code":"index_not_found",
"message":"No index `z`.","type":"invalid_request"}

POST~/multi-search~{"queries":[{"indexUid":"m"},{"indexUid":"z"},{"indexUid":"m",
"filter":"title = x"}]}~404 {"code":"index_not_found","message":"No index `z`.","type":"invalid_request"}

POST~/multi-search~{"queries":[{"indexUid":"m"},{"indexUid":"m","filter":"title = x"},
{"indexUid":"z"}]}~400 {"code":"invalid_search_filter","message":"`title` is not filterable.",
"type":"invalid_request"}

POST~/multi-search~{"queries":[{"indexUid":"m"},{"indexUid":"n","sort":["name:asc"]},
{"indexUid":"z"}]}~400 {"code":"invalid_search_sort","message":"`name` is not sortable.",
"type":"invalid_request"}

POST~/multi-search~{"queries":[{"indexUid":"m","facets":["title"]},{"indexUid":"m",
"limit":0}]}~400 {"code":"invalid_search_facets","message":"`title` is not filterable.",
"type":"invalid_request"}

POST~/multi-search~{"queries":[{"indexUid":"m","limit":0},{"indexUid":"m","limit":0},{"indexUid":"n",
"facets":["name"]}]}~400 {"code":"invalid_search_facets","message":"`name` is not filterable.",
"type":"invalid_request"}

POST~/multi-search~{"queries":[{"q":"x"}]}~400 {"code":"missing_index_uid",
"message":"Query 1 has no index uid.","type":"invalid_request"}

POST~/multi-search~{"queries":[{"indexUid":"z"},{"indexUid":"m",
"limit":-1}]}~400 {"code":"invalid_search_limit","message":"Invalid `limit`.","type":"invalid_request"}"#;

const FACET_SEARCHES: &str =
    r#"POST~/indexes/m/facet-search~{"facetName":"genres","facetQuery":"DR"}~200 {"facetHits":[{"count":2,
"value":"Drama"}],"facetQuery":"DR"}

POST~/indexes/m/facet-search~{"facetName":"genres"}~200 {"facetHits":[{"count":1,"value":"Action"},
{"count":1,"value":"Crime"},{"count":2,"value":"Drama"},{"count":1,"value":"Mystery"}],"facetQuery":null}

POST~/indexes/m/facet-search~{"facetName":"genres","facetQuery":null,
"q":"dark"}~200 {"facetHits":[{"count":1,"value":"Action"},{"count":2,"value":"Drama"},{"count":1,
"value":"Mystery"}],"facetQuery":null}

POST~/indexes/m/facet-search~{"facetName":"genres","facetQuery":"dr",
"q":"rises"}~200 {"facetHits":[{"count":1,"value":"drama"}],"facetQuery":"dr"}

POST~/indexes/m/facet-search~{"facetName":"genres","facetQuery":"",
"filter":"year > 2000"}~200 {"facetHits":[{"count":1,"value":"Action"},{"count":1,"value":"Crime"},
{"count":1,"value":"drama"}],"facetQuery":""}

POST~/indexes/m/facet-search~{"facetName":"genres","q":"dark rises",
"matchingStrategy":"all"}~200 {"facetHits":[{"count":1,"value":"Action"},{"count":1,"value":"drama"}],
"facetQuery":null}

POST~/indexes/m/facet-search~{"facetName":"year","facetQuery":"20"}~200 {"facetHits":[{"count":1,
"value":"2011"},{"count":1,"value":"2012"}],"facetQuery":"20"}

POST~/indexes/m/facet-search~{"facetName":"genres","facetQuery":"x"}~200 {"facetHits":[],"facetQuery":"x"}

POST~/indexes/z/facet-search~{"facetName":"genres"}~404 {"code":"index_not_found","message":"No index `z`.",
"type":"invalid_request"}

POST~/indexes/m/facet-search~{"facetName":"title"}~400 {"code":"invalid_facet_search_facet_name",
"message":"Invalid `facetName`.","type":"invalid_request"}

POST~/indexes/m/facet-search~{"facetName":"title","filter":"title = x"}~400 {"code":"invalid_search_filter",
"message":"`title` is not filterable.","type":"invalid_request"}

POST~/indexes/m/facet-search~{"facetQuery":"dr"}~400 {"code":"missing_facet_search_facet_name",
"message":"The facet name is missing.","type":"invalid_request"}"#;

// A machine of two indexes with documents.
fn filled_machine(rt: &impl Abort, alloc: Global) -> Machine {
    let mut machine = new_machine(rt, alloc);
    check_table(rt, alloc, &mut machine, STORED);
    machine
}

#[test]
fn several_searches_in_one_request(rt: HostRuntime) {
    let mut machine = filled_machine(&rt, rt.alloc());
    check_table(&rt, rt.alloc(), &mut machine, SEVERAL_SEARCHES);
}

#[test]
fn searches_of_the_values_of_an_attribute(rt: HostRuntime) {
    let mut machine = filled_machine(&rt, rt.alloc());
    check_table(&rt, rt.alloc(), &mut machine, FACET_SEARCHES);
}
